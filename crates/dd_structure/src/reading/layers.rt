ghost use Rattle.std.specs.Prelude.{◌≡◌, ◌≤◌, take, length, IfOk, OnOk};
ghost use Rattle.dd_bits.specs.Reader.{bits_left};
ghost use Rattle.dd_bits.specs.Sequences.{Gives};
ghost use Rattle.dd_structure.specs.Reading.{next_layer_at, layers_at};

use crate::fault::StructureFault;
use crate::layer::Layer;
use crate::reading::fields::number;
use dd_bits::BitReader;

/// The layer of the first template (Appendix A, template_layers).
pub const FIRST: Layer = Layer {
    spatial: 0,
    temporal: 0,
};

/// Reads the layer of the next template, after a template of layer `layer`. Returns `None` if no template follows.
#[tactic(auto, unfolding(crate::specs::Reading::next_layer_at))]
fn next_layer(bits: &mut BitReader<'_>, layer: Layer) -> Result<Option<Layer>, StructureFault>
    ensures { Gives (λ v. v) result bits.new (next_layer_at layer (bits_left bits.old)) }
{
    match number(bits, 2)? {
        0 => Ok(Some(layer)),
        1 if layer.temporal < 7 => Ok(Some(Layer {
            spatial: layer.spatial,
            temporal: layer.temporal + 1,
        })),
        2 if layer.spatial < 3 => Ok(Some(Layer {
            spatial: layer.spatial + 1,
            temporal: 0,
        })),
        1 | 2 => Err(StructureFault::Layer),
        _ => Ok(None),
    }
}

/// Reads the layer of each template into `out`, which is overwritten. Returns how many templates there are.
pub fn fill_layers(bits: &mut BitReader<'_>, out: &mut [Layer; 64]) -> Result<u8, StructureFault>
    ensures read { Gives (λ n. take n out.new) result bits.new (layers_at (bits_left bits.old)) }
    ensures some { IfOk result (λ n. 1 ≤ n) }
    ensures most { IfOk result (λ n. n ≤ 64) }
    ensures many { IfOk result (λ n. length (take n out.new) ≡ n) }
    ensures len { OnOk result (length out.new ≡ 64) }
{
    out[0] = FIRST;
    let mut before = FIRST;
    for count in 1..64 {
        match next_layer(bits, before)? {
            None => return Ok(count),
            Some(layer) => {
                out[count as usize] = layer;
                before = layer;
            }
        }
    }
    match next_layer(bits, before)? {
        None => Ok(64),
        Some(_) => Err(StructureFault::Templates),
    }
}
