//! Writes a structure field by field, in the order of the bits.

pub mod chains;
mod distances;
pub mod indications;
mod layers;
mod resolutions;

ghost use Rattle.dd_bits.specs.Writer.{Puts};
ghost use Rattle.dd_structure.specs.Columns.{structure_of, IsWhole};
ghost use Rattle.dd_structure.specs.Spelling.{head_bits, template_bits, chain_bits, structure_bits};

use crate::columns::Columns;
use crate::reading::chains::guarded_targets;
use crate::writing::chains::{put_guards, put_link_table};
use crate::writing::distances::put_distance_table;
use crate::writing::indications::put_indication_table;
use crate::writing::layers::put_layers;
use crate::writing::resolutions::put_resolutions;
use dd_bits::{BitWriter, NoRoom};

#[tactic(auto, unfolding(crate::specs::Spelling::head_bits))]
fn put_head(out: &mut BitWriter, columns: &Columns) -> Result<(), NoRoom>
    requires { IsWhole columns.now }
    ensures { Puts result out.old out.new (head_bits (structure_of columns.now)) }
{
    out.put(6, columns.offset as u32)?;
    out.put(5, columns.target_count as u32 - 1)?;
    put_layers(out, &columns.layers[..columns.template_count as usize])
}

#[tactic(auto, unfolding(crate::specs::Spelling::template_bits))]
fn put_templates(out: &mut BitWriter, columns: &Columns) -> Result<(), NoRoom>
    requires { IsWhole columns.now }
    ensures { Puts result out.old out.new (template_bits (structure_of columns.now)) }
{
    let templates = columns.template_count as usize;
    let targets = columns.target_count as usize;
    put_indication_table(out, targets, &columns.indications[..templates])?;
    put_distance_table(out, &columns.distances[..templates])
}

#[tactic(auto, unfolding(crate::specs::Spelling::chain_bits))]
fn put_chains(out: &mut BitWriter, columns: &Columns) -> Result<(), NoRoom>
    requires { IsWhole columns.now }
    ensures { Puts result out.old out.new (chain_bits (structure_of columns.now)) }
{
    let chains = columns.chain_count;
    let guards = guarded_targets(chains, columns.target_count) as usize;
    let templates = columns.template_count as usize;
    out.put_ns(columns.target_count as u32 + 1, chains as u32)?;
    put_guards(out, chains, &columns.guards[..guards])?;
    put_link_table(out, chains as usize, &columns.links[..templates])
}

/// Appends the bits of a structure. Returns `NoRoom` if they don't fit; a part of them may have been appended by then.
#[tactic(auto, unfolding(crate::specs::Spelling::structure_bits))]
pub fn put_columns(out: &mut BitWriter, columns: &Columns) -> Result<(), NoRoom>
    requires { IsWhole columns.now }
    ensures { Puts result out.old out.new (structure_bits (structure_of columns.now)) }
{
    put_head(out, columns)?;
    put_templates(out, columns)?;
    put_chains(out, columns)?;
    let resolutions = &columns.resolutions;
    put_resolutions(out, &resolutions.items[..resolutions.count as usize])
}
