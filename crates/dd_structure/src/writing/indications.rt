ghost use Rattle.std.specs.Prelude.{◌≡◌, ◌<◌, ◌≤◌, take};
ghost use Rattle.std.specs.List.{flat_map};
ghost use Rattle.dd_bits.specs.Writer.{Puts};
ghost use Rattle.dd_structure.specs.Spelling.{indication_bits};

use dd_bits::{BitWriter, NoRoom};
use sfu_base::Dti;

/// Appends an indication for each decode target. Returns `NoRoom` if the bits don't fit; a part of them may have been appended by then.
pub fn put_indications(out: &mut BitWriter, row: &[Dti]) -> Result<(), NoRoom>
    ensures { Puts result out.old out.new (flat_map indication_bits row.now) }
{
    for indication in row {
        out.put(2, indication.code())?;
    }
    Ok(())
}

/// Appends the indications of each template.
pub fn put_indication_table(
    out: &mut BitWriter,
    targets: usize,
    rows: &[[Dti; 32]],
) -> Result<(), NoRoom>
    requires { targets ≤ 32 }
    ensures { Puts result out.old out.new (flat_map (λ row. flat_map indication_bits (take targets row)) rows.now) }
{
    for row in rows {
        put_indications(out, &row[..targets])?;
    }
    Ok(())
}
