// Numbers in decimal digits.
ghost use Rattle.std.specs.Prelude.{◌≡◌, ◌++◌, OnErr, OnOk, decimal};

use itoa::Buffer;
use sfu_base::{Blob, NoMemory};

/// Appends a number in decimal digits. On `NoMemory`, `out` is unchanged.
pub fn append_number(number: u64, out: &mut Blob) -> Result<(), NoMemory>
    ensures ok { OnOk result (out.new ≡ out.old ++ decimal number) }
    ensures err { OnErr result (out.new ≡ out.old) }
{
    let mut digits = Buffer::new();
    out.append(digits.format(number).as_bytes())
}
