ghost use Rattle.std.specs.Prelude.{◌≡◌, ◌≤◌, take, map, length, OnOk};
ghost use Rattle.dd_bits.specs.Reader.{bits_left};
ghost use Rattle.dd_bits.specs.Sequences.{Gives, repeat_at};
ghost use Rattle.dd_structure.specs.Reading.{indication_at, indication_or};

use crate::fault::StructureFault;
use dd_bits::BitReader;
use sfu_base::Dti;

#[tactic(auto, unfolding(crate::specs::Reading::indication_or))]
fn indication<E: Copy>(bits: &mut BitReader<'_>, short: E) -> Result<Dti, E>
    ensures { Gives (λ v. v) result bits.new (indication_or short (bits_left bits.old)) }
{
    let code = bits.bits_or(2, short)?;
    Ok(Dti::from_code(code))
}

/// Reads an indication for each decode target into `out`, which is overwritten. Returns `short` if there are too few bits. In that case the reader
/// may have moved on, and the contents of `out` are unspecified. Out of line: few frames have indications of their own.
#[inline(never)]
pub fn read_indications_into<E: Copy>(
    bits: &mut BitReader<'_>,
    targets: u8,
    short: E,
    out: &mut [Dti; 32],
) -> Result<(), E>
    requires { targets ≤ 32 }
    ensures { Gives (λ _. take targets out.new) result bits.new (repeat_at (indication_or short) targets (bits_left bits.old)) }
{
    for i in 0..targets {
        out[i as usize] = indication(bits, short)?;
    }
    Ok(())
}

/// Reads the indications of each template into `out`, which is overwritten.
pub fn fill_indication_table(
    bits: &mut BitReader<'_>,
    targets: u8,
    templates: u8,
    out: &mut [[Dti; 32]; 64],
) -> Result<(), StructureFault>
    requires targets { targets ≤ 32 }
    requires templates { templates ≤ 64 }
    ensures read { Gives (λ _. map (take targets) (take templates out.new)) result bits.new
        (repeat_at (repeat_at indication_at targets) templates (bits_left bits.old)) }
    ensures len { OnOk result (length out.new ≡ 64) }
{
    for i in 0..templates {
        let row = &mut out[i as usize];
        read_indications_into(bits, targets, StructureFault::Short, row)?;
    }
    Ok(())
}
