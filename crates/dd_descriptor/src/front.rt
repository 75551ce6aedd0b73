//! Reads those fields of a descriptor that can be read without a structure.

ghost use Rattle.std.specs.Prelude.{◌≡◌, ◌<◌, ◌↔◌, Ok, Option, IsErr, IfOk, length};
ghost use Rattle.dd_structure.specs.TemplateStructure.{TemplateStructure};
ghost use Rattle.dd_descriptor.specs.Content.{Content};
ghost use Rattle.dd_descriptor.specs.Edges.{edges_of, BeginsWith};
ghost use Rattle.dd_descriptor.specs.Reading.{descriptor_at};

use crate::descriptor::Edges;
use crate::reading::fields::head;
use dd_bits::Short;

/// Reads the start and end flags and the frame number from the first three bytes of a descriptor (RTP Payload Format For AV1 v1.0, Appendix A,
/// mandatory_descriptor_fields). Any bytes may follow. Returns `Short` if there are fewer than three bytes.
pub fn edges(bytes: &[u8]) -> Result<Edges, Short>
    ensures short { IsErr result ↔ (length bytes.now < 3) }
    ensures front { IfOk result (BeginsWith bytes.now) }
    ensures read { (force : Option TemplateStructure) (c : Content) → descriptor_at bytes.now force ≡ Ok c → result ≡ Ok (edges_of c) }
{
    match head(bytes) {
        Ok((head, _)) => Ok(Edges {
            start: head.start,
            end: head.end,
            number: head.number,
        }),
        Err(_) => Err(Short),
    }
}
