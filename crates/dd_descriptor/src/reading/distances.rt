//! Reads a frame's custom distances to its referenced frames. They replace the distances of its template.

ghost use Rattle.dd_bits.specs.Reader.{bits_left};
ghost use Rattle.dd_bits.specs.Sequences.{Gives};
ghost use Rattle.dd_descriptor.specs.Reading.{next_distance_at, distances_at};
ghost use Rattle.dd_descriptor.specs.Seen.{distances_in};

use crate::fault::DdFault;
use crate::parts::References;
use crate::reading::fields::number;
use dd_bits::BitReader;

/// Reads the next distance. Returns `None` if there are no more distances.
#[tactic(auto, unfolding(crate::specs::Reading::next_distance_at))]
fn next_distance(bits: &mut BitReader<'_>) -> Result<Option<u16>, DdFault>
    ensures { Gives (λ v. v) result bits.new (next_distance_at (bits_left bits.old)) }
{
    let size = number(bits, 2)? as u8;
    if size == 0 {
        return Ok(None);
    }
    let less = number(bits, 4 * size)?;
    Ok(Some(less as u16 + 1))
}

/// Reads all distances, and also the code that ends them.
pub fn distances(bits: &mut BitReader<'_>) -> Result<References, DdFault>
    ensures { Gives distances_in result bits.new (distances_at (bits_left bits.old)) }
{
    let mut items = [0; 16];
    for count in 0..16 {
        match next_distance(bits)? {
            None => return Ok(References { count, items }),
            Some(distance) => items[count as usize] = distance,
        }
    }
    match next_distance(bits)? {
        None => Ok(References { count: 16, items }),
        Some(_) => Err(DdFault::References),
    }
}
