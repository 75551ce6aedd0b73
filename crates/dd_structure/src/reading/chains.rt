ghost use Rattle.std.specs.Prelude.{◌≡◌, ◌≤◌, take, map, length, OnOk};
ghost use Rattle.dd_bits.specs.Reader.{bits_left};
ghost use Rattle.dd_bits.specs.Sequences.{Gives, fixed_or, repeat_at};
ghost use Rattle.dd_structure.specs.Reading.{number_at, below_at, guard_count, guards_at};

use crate::fault::StructureFault;
use crate::reading::fields::below;
use dd_bits::BitReader;

/// The width of a template's link, in bits.
pub const LINK_WIDTH: u8 = 4;

/// How many decode targets are protected by a chain: all, or none if there are no chains.
pub fn guarded_targets(chains: u8, targets: u8) -> u8
    ensures value { result ≡ guard_count chains targets }
    ensures within { result ≤ targets }
    ensures none { chains ≡ 0 → result ≡ 0 }
{
    if chains == 0 { 0 } else { targets }
}

fn fill_guard_list(
    bits: &mut BitReader<'_>,
    chains: u8,
    targets: u8,
    out: &mut [u8; 32],
) -> Result<(), StructureFault>
    requires targets { targets ≤ 32 }
    requires chains { chains ≤ 32 }
    requires none { chains ≡ 0 → targets ≡ 0 }
    ensures { Gives (λ _. take targets out.new) result bits.new (repeat_at (below_at chains) targets (bits_left bits.old)) }
{
    for i in 0..targets {
        out[i as usize] = below(bits, chains as u32)? as u8;
    }
    Ok(())
}

/// For each decode target, reads the index of the chain that protects it. The contents of `out` are overwritten.
#[tactic(auto, unfolding(crate::specs::Reading::guards_at))]
pub fn fill_guards(
    bits: &mut BitReader<'_>,
    chains: u8,
    targets: u8,
    out: &mut [u8; 32],
) -> Result<(), StructureFault>
    requires targets { targets ≤ 32 }
    requires chains { chains ≤ 32 }
    ensures { Gives (λ _. take (guard_count chains targets) out.new) result bits.new (guards_at chains targets (bits_left bits.old)) }
{
    fill_guard_list(bits, chains, guarded_targets(chains, targets), out)
}

/// Reads a link of `width` bits for each chain into `out`, which is overwritten. Returns `short` if there are too few bits. In that case the reader
/// may have moved on, and the contents of `out` are unspecified. Out of line: few frames have links of their own.
#[inline(never)]
pub fn read_links_into<E: Copy>(
    bits: &mut BitReader<'_>,
    width: u8,
    chains: u8,
    short: E,
    out: &mut [u8; 32],
) -> Result<(), E>
    requires width { width ≤ 8 }
    requires chains { chains ≤ 32 }
    ensures { Gives (λ _. take chains out.new) result bits.new (repeat_at (fixed_or short width) chains (bits_left bits.old)) }
{
    for i in 0..chains {
        out[i as usize] = bits.bits_or(width, short)? as u8;
    }
    Ok(())
}

/// Reads the links of each template into `out`, which is overwritten.
pub fn fill_link_table(
    bits: &mut BitReader<'_>,
    chains: u8,
    templates: u8,
    out: &mut [[u8; 32]; 64],
) -> Result<(), StructureFault>
    requires chains { chains ≤ 32 }
    requires templates { templates ≤ 64 }
    ensures read { Gives (λ _. map (take chains) (take templates out.new)) result bits.new
        (repeat_at (repeat_at (number_at 4) chains) templates (bits_left bits.old)) }
    ensures len { OnOk result (length out.new ≡ 64) }
{
    for i in 0..templates {
        let row = &mut out[i as usize];
        read_links_into(bits, LINK_WIDTH, chains, StructureFault::Short, row)?;
    }
    Ok(())
}
