ghost use Rattle.std.specs.Prelude.{◌<◌, ◌≤◌, ◌^◌, take, All};
ghost use Rattle.std.specs.List.{flat_map};
ghost use Rattle.dd_bits.specs.Bits.{bits_of};
ghost use Rattle.dd_bits.specs.Numbers.{non_symmetric_bits};
ghost use Rattle.dd_bits.specs.Writer.{Puts};

use crate::reading::chains::LINK_WIDTH;
use dd_bits::{BitWriter, NoRoom};

/// Appends, for each decode target, the index of the chain that protects it.
pub fn put_guards(out: &mut BitWriter, chains: u8, guards: &[u8]) -> Result<(), NoRoom>
    requires { All (λ g. g < chains) guards.now }
    ensures { Puts result out.old out.new (flat_map (non_symmetric_bits chains) guards.now) }
{
    for guard in guards {
        out.put_ns(chains as u32, *guard as u32)?;
    }
    Ok(())
}

/// Appends a link of `width` bits for each chain. Returns `NoRoom` if the bits don't fit; a part of them may have been appended by then.
pub fn put_links(out: &mut BitWriter, width: u8, row: &[u8]) -> Result<(), NoRoom>
    requires width { width ≤ 32 }
    requires small { All (λ l. l < 2 ^ width) row.now }
    ensures { Puts result out.old out.new (flat_map (bits_of width) row.now) }
{
    for link in row {
        out.put(width, *link as u32)?;
    }
    Ok(())
}

/// Appends the links of each template.
pub fn put_link_table(out: &mut BitWriter, chains: usize, rows: &[[u8; 32]]) -> Result<(), NoRoom>
    requires chains { chains ≤ 32 }
    requires small { All (λ row. All (λ l. l < 2 ^ 4) (take chains row)) rows.now }
    ensures { Puts result out.old out.new (flat_map (λ row. flat_map (bits_of 4) (take chains row)) rows.now) }
{
    for row in rows {
        put_links(out, LINK_WIDTH, &row[..chains])?;
    }
    Ok(())
}
