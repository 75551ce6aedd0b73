// A packet's bytes, read from hex digits.
ghost use Rattle.std.specs.Prelude.{◌≡◌, ◌≤◌, MatchResult, None, Some, take};
ghost use Rattle.sfu_script.specs.Reading.{bytes_of};

use crate::NoLine;

/// The greatest length of a packet, in bytes.
pub const MOST_BYTES: usize = 2048;

const MOST_DIGITS: usize = 2 * MOST_BYTES;

// Out of line: if the loop were inlined into its callers, its counters wouldn't stay in registers.
/// Decodes a word of hex digits into the start of `out`, and returns the number of bytes, 1 to 2,048. Returns `NoLine` if the word is empty,
/// is longer than 4,096 bytes, has an odd length, or contains a byte that isn't a hex digit.
#[inline(never)]
pub fn decode(word: &[u8], out: &mut [u8; MOST_BYTES]) -> Result<usize, NoLine>
    ensures { MatchResult result (λ count. (count ≤ MOST_BYTES) × (bytes_of word.now ≡ Some (take count out.new))) (λ _. bytes_of word.now ≡ None) }
{
    if word.is_empty() || word.len() > MOST_DIGITS || word.len() % 2 == 1 {
        return Err(NoLine);
    }
    let count = word.len() / 2;
    match hex::decode_to_slice(word, &mut out[..count]) {
        Ok(()) => Ok(count),
        Err(_) => Err(NoLine),
    }
}
