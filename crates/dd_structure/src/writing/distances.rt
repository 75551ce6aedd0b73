ghost use Rattle.std.specs.Prelude.{◌≤◌, All};
ghost use Rattle.std.specs.List.{flat_map};
ghost use Rattle.dd_bits.specs.Writer.{Puts};
ghost use Rattle.dd_structure.specs.Columns.{distances_in};
ghost use Rattle.dd_structure.specs.Spelling.{IsDistance, distance_bits, distances_bits};

use crate::columns::Distances;
use dd_bits::{BitWriter, NoRoom};

fn put_distance(out: &mut BitWriter, distance: u8) -> Result<(), NoRoom>
    requires { IsDistance distance }
    ensures { Puts result out.old out.new (distance_bits distance) }
{
    out.put(1, 1)?;
    out.put(4, distance as u32 - 1)
}

fn put_distances(out: &mut BitWriter, distances: &[u8]) -> Result<(), NoRoom>
    requires { All IsDistance distances.now }
    ensures { Puts result out.old out.new (distances_bits distances.now) }
{
    for distance in distances {
        put_distance(out, *distance)?;
    }
    out.put(1, 0)
}

/// Appends the distances of each template.
pub fn put_distance_table(out: &mut BitWriter, rows: &[Distances]) -> Result<(), NoRoom>
    requires { All (λ row. All IsDistance (distances_in row)) rows.now }
    ensures { Puts result out.old out.new (flat_map (λ row. distances_bits (distances_in row)) rows.now) }
{
    for row in rows {
        put_distances(out, &row.items[..row.count as usize])?;
    }
    Ok(())
}
