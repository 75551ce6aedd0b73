ghost use Rattle.std.specs.Prelude.{◌≤◌, ◌<◌, ◌^◌, IfOk};
ghost use Rattle.dd_bits.specs.Reader.{bits_left};
ghost use Rattle.dd_bits.specs.Sequences.{Gives};
ghost use Rattle.dd_structure.specs.Reading.{number_at, below_at};

use crate::fault::StructureFault;
use dd_bits::BitReader;

/// Reads f(n): a number of `n` bits.
pub fn number(bits: &mut BitReader<'_>, n: u8) -> Result<u32, StructureFault>
    requires { n ≤ 32 }
    ensures read { Gives (λ v. v) result bits.new (number_at n (bits_left bits.old)) }
    ensures small { IfOk result (λ v. v < 2 ^ n) }
{
    bits.bits_or(n, StructureFault::Short)
}

/// Reads ns(n): a number below `n`.
pub fn below(bits: &mut BitReader<'_>, n: u32) -> Result<u32, StructureFault>
    requires { 1 ≤ n }
    ensures read { Gives (λ v. v) result bits.new (below_at n (bits_left bits.old)) }
    ensures small { IfOk result (λ v. v < n) }
{
    bits.ns_or(n, StructureFault::Short)
}
