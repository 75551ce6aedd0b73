// The numbers of a line: the type of each field, and one reader for all lists of fields.
ghost use Rattle.std.specs.Prelude.{◌≡◌, IfOk, MatchResult, None, Some};
ghost use Rattle.std.specs.Result.{result_ok};
ghost use Rattle.sfu_script.specs.Fields.{field_of, fields_of, AreWithin};

use crate::NoLine;
use crate::words::{number8, number16, number32, number64, split, ssrc};

/// The type of a field. A field is one word of a line.
#[derive(Clone, Copy, Debug, PartialEq, Eq)]
pub enum Field {
    /// A number of 8 bits, in decimal digits without a leading zero.
    Number8,
    /// A number of 16 bits, in decimal digits without a leading zero.
    Number16,
    /// A number of 32 bits, in decimal digits without a leading zero.
    Number32,
    /// A number of 64 bits, in decimal digits without a leading zero.
    Number64,
    /// A number of 32 bits, in eight hex digits.
    Ssrc,
}

impl Field {
    fn read(self, word: &[u8]) -> Result<u64, NoLine>
        ensures { result_ok result ≡ field_of self word.now }
    {
        match self {
            Field::Number8 => Ok(u64::from(number8(word)?)),
            Field::Number16 => Ok(u64::from(number16(word)?)),
            Field::Number32 => Ok(u64::from(number32(word)?)),
            Field::Number64 => number64(word),
            Field::Ssrc => Ok(u64::from(ssrc(word)?)),
        }
    }
}

/// Reads a text as numbers: one word for each field of `places`, with one space between words. Returns `NoLine` exactly if the text isn't of this
/// form, or if `places` is empty. Allocates no memory.
pub fn read_fields<const N: usize>(places: &[Field; N], text: &[u8]) -> Result<[u64; N], NoLine>
    ensures value { MatchResult result (λ numbers. fields_of places.now text.now ≡ Some numbers) (λ _. fields_of places.now text.now ≡ None) }
    ensures within { IfOk result (λ numbers. AreWithin places.now numbers) }
{
    let mut numbers = [0; N];
    let mut rest = text;
    for (i, place) in places.iter().enumerate() {
        if i + 1 == N {
            numbers[i] = place.read(rest)?;
            return Ok(numbers);
        }
        let (word, after) = split(rest)?;
        numbers[i] = place.read(word)?;
        rest = after;
    }
    Err(NoLine)
}
