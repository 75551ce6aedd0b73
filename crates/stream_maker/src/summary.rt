// The texts about a stream.

ghost use Rattle.std.specs.Prelude.{◌≡◌, IfOk};
ghost use Rattle.std.specs.String.{string_bytes};
ghost use Rattle.stream_maker.specs.Summary.{counts_text, made_text};

use crate::counts::Counts;
use std::alloc::{AllocError, Global};

/// Returns the counts of a stream as two lines of text. Returns `AllocError` if memory runs out.
pub fn made_text(alloc: Global, counts: Counts) -> Result<String, AllocError>
    ensures { IfOk result (λ text. string_bytes text ≡ made_text counts) }
{
    let Counts {
        frames,
        packets,
        lost,
        repeated,
        swapped,
    } = counts;
    format!(in alloc;
        "made {frames} frames {packets} packets\nlost {lost} repeated {repeated} swapped {swapped}\n"
    )
}

/// Returns a line of text about the subscriber `number`: how many frames and packets it
/// received, and how many complaints there are. Returns `AllocError` if memory runs out.
pub fn counts_text(
    alloc: Global,
    number: u32,
    frames: u64,
    packets: u64,
    complaints: u8,
) -> Result<String, AllocError>
    ensures { IfOk result (λ text. string_bytes text ≡ counts_text number frames packets complaints) }
{
    format!(in alloc;
        "subscriber {number} frames {frames} packets {packets} complaints {complaints}\n"
    )
}
