ghost use Rattle.std.specs.Prelude.{◌≡◌, ◌≤◌, take, map, length, OnOk};
ghost use Rattle.dd_bits.specs.Reader.{bits_left};
ghost use Rattle.dd_bits.specs.Sequences.{Gives, repeat_at};
ghost use Rattle.dd_structure.specs.Columns.{distances_in};
ghost use Rattle.dd_structure.specs.Reading.{next_distance_at, distances_at};

use crate::columns::Distances;
use crate::fault::StructureFault;
use crate::reading::fields::number;
use dd_bits::BitReader;

/// Reads a template's next distance, if there is one.
#[tactic(auto, unfolding(crate::specs::Reading::next_distance_at))]
fn next_distance(bits: &mut BitReader<'_>) -> Result<Option<u8>, StructureFault>
    ensures { Gives (λ v. v) result bits.new (next_distance_at (bits_left bits.old)) }
{
    if number(bits, 1)? == 0 {
        return Ok(None);
    }
    let less = number(bits, 4)?;
    Ok(Some(less as u8 + 1))
}

fn distances(bits: &mut BitReader<'_>) -> Result<Distances, StructureFault>
    ensures { Gives distances_in result bits.new (distances_at (bits_left bits.old)) }
{
    let mut items = [0; 16];
    for count in 0..16 {
        match next_distance(bits)? {
            None => return Ok(Distances { count, items }),
            Some(distance) => items[count as usize] = distance,
        }
    }
    match next_distance(bits)? {
        None => Ok(Distances { count: 16, items }),
        Some(_) => Err(StructureFault::References),
    }
}

/// Reads the distances of each template into `out`, which is overwritten.
pub fn fill_distance_table(
    bits: &mut BitReader<'_>,
    templates: u8,
    out: &mut [Distances; 64],
) -> Result<(), StructureFault>
    requires { templates ≤ 64 }
    ensures read { Gives (λ _. map distances_in (take templates out.new)) result bits.new (repeat_at distances_at templates (bits_left bits.old)) }
    ensures len { OnOk result (length out.new ≡ 64) }
{
    for i in 0..templates {
        out[i as usize] = distances(bits)?;
    }
    Ok(())
}
