//! Reads a structure field by field, in the order of the bits.

pub mod chains;
mod distances;
mod fields;
pub mod indications;
pub mod layers;
mod resolutions;

ghost use Rattle.std.specs.Prelude.{◌≡◌, OnOk, OnErr};
ghost use Rattle.dd_bits.specs.Reader.{bits_left};
ghost use Rattle.dd_bits.specs.Sequences.{Gives};
ghost use Rattle.dd_structure.specs.Reading.{structure_at};
ghost use Rattle.dd_structure.specs.Columns.{structure_of, IsWithin, IsWhole};

use crate::blank::mend;
use crate::columns::Columns;
use crate::fault::StructureFault;
use crate::reading::chains::{fill_guards, fill_link_table};
use crate::reading::distances::fill_distance_table;
use crate::reading::fields::{below, number};
use crate::reading::indications::fill_indication_table;
use crate::reading::layers::fill_layers;
use crate::reading::resolutions::resolutions;
use dd_bits::BitReader;

/// Reads a structure into `out`, which is overwritten, or returns the first fault. After a fault the reader may have moved on, and `out` may
/// have a part of a structure.
#[tactic(auto, unfolding(crate::specs::Reading::structure_at))]
fn fill_columns(bits: &mut BitReader<'_>, out: &mut Columns) -> Result<(), StructureFault>
    ensures read { Gives (λ _. structure_of out.new) result bits.new (structure_at (bits_left bits.old)) }
    ensures within { OnOk result (IsWithin out.new) }
{
    let offset = number(bits, 6)? as u8;
    let targets = number(bits, 5)? as u8 + 1;
    let templates = fill_layers(bits, &mut out.layers)?;
    fill_indication_table(bits, targets, templates, &mut out.indications)?;
    fill_distance_table(bits, templates, &mut out.distances)?;
    let chains = below(bits, targets as u32 + 1)? as u8;
    fill_guards(bits, chains, targets, &mut out.guards)?;
    fill_link_table(bits, chains, templates, &mut out.links)?;
    out.resolutions = resolutions(bits, &out.layers[..templates as usize])?;
    out.offset = offset;
    out.target_count = targets;
    out.chain_count = chains;
    out.template_count = templates;
    Ok(())
}

/// Like `fill_columns`, but after a fault the columns are those of some valid structure, and the reader is unchanged.
pub fn fill_whole(bits: &mut BitReader<'_>, out: &mut Columns) -> Result<(), StructureFault>
    ensures read { Gives (λ _. structure_of out.new) result bits.new (structure_at (bits_left bits.old)) }
    ensures unchanged { OnErr result (bits.new ≡ bits.old) }
    ensures whole { IsWhole out.new }
{
    let before = *bits;
    match fill_columns(bits, out) {
        Ok(()) => Ok(()),
        Err(fault) => {
            *bits = before;
            mend(out);
            Err(fault)
        }
    }
}
