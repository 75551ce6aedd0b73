// Removes what a writer appended before memory ran out.
ghost use Rattle.std.specs.Prelude.{◌≡◌, OnErr, OnOk, take};

use sfu_base::{Blob, NoMemory};

/// Returns `written`, the result of a writer that began to append at index `start` of `out`. On `NoMemory`, first truncates `out` to `start` bytes.
pub fn whole_or_nothing(
    written: Result<(), NoMemory>,
    start: usize,
    out: &mut Blob,
) -> Result<(), NoMemory>
    ensures same { result ≡ written }
    ensures ok { OnOk result (out.new ≡ out.old) }
    ensures err { OnErr result (out.new ≡ take start out.old) }
{
    match written {
        Ok(()) => Ok(()),
        Err(NoMemory) => {
            out.truncate(start);
            Err(NoMemory)
        }
    }
}
