// Readers for the words of a line, from left to right.
ghost use Rattle.std.specs.Prelude.{◌≡◌, ◌≤◌, ◌^◌, ◌&&◌, if◌then◌else◌, length, nat_lt, IfSome, MatchResult, None, Some};
ghost use Rattle.std.specs.Result.{result_ok};
ghost use Rattle.std.specs.Str.{all_ascii_digits};
ghost use Rattle.std.specs.Str.Parse.{digits_value};
ghost use Rattle.sfu_script.specs.Reading.{cut, cut_at, field, number_of, ssrc_of};

use crate::NoLine;

/// Splits the text at the first byte that equals `mark`. Returns the text before this byte, and the text after it. Returns `NoLine` if the text has no such
/// byte.
#[inline(always)]
pub fn split_at(text: &[u8], mark: u8) -> Result<(&[u8], &[u8]), NoLine>
    ensures { MatchResult result (λ parts. cut_at mark text.now ≡ Some (parts.0.now, parts.1.now)) (λ _. cut_at mark text.now ≡ None) }
{
    for (i, byte) in text.iter().enumerate() {
        if *byte == mark {
            return Ok((&text[..i], &text[i + 1..]));
        }
    }
    Err(NoLine)
}

/// Splits the text at the first space. Returns the text before this space, and the text after it. Returns `NoLine` if the text has no space. Allocates no
/// memory.
pub fn split(text: &[u8]) -> Result<(&[u8], &[u8]), NoLine>
    ensures { MatchResult result (λ parts. cut text.now ≡ Some (parts.0.now, parts.1.now)) (λ _. cut text.now ≡ None) }
{
    split_at(text, b' ')
}

// Returns the value of at most 19 decimal digits, which always fits into 64 bits. Returns `None` if some byte isn't a digit.
fn short_decimal(word: &[u8]) -> Option<u64>
    requires { length word.now ≤ 19 }
    ensures { result ≡ (if all_ascii_digits word.now && nat_lt (digits_value 10 word.now) (2 ^ 64) then Some (digits_value 10 word.now) else None) }
{
    let mut number = 0u64;
    for byte in word {
        if !byte.is_ascii_digit() {
            return None;
        }
        number = number * 10 + u64::from(*byte - b'0');
    }
    Some(number)
}

// Returns the value of decimal digits. Returns `None` if some byte isn't a digit, or if the value is 2^64 or more.
fn decimal(word: &[u8]) -> Option<u64>
    ensures { result ≡ (if all_ascii_digits word.now && nat_lt (digits_value 10 word.now) (2 ^ 64) then Some (digits_value 10 word.now) else None) }
{
    if word.len() <= 19 {
        return short_decimal(word);
    }
    let mut number = 0u64;
    for byte in word {
        if !byte.is_ascii_digit() {
            return None;
        }
        number = number
            .checked_mul(10)?
            .checked_add(u64::from(*byte - b'0'))?;
    }
    Some(number)
}

/// Reads a word as a 64-bit number, written in decimal digits without a leading zero.
pub fn number64(word: &[u8]) -> Result<u64, NoLine>
    ensures { result_ok result ≡ number_of 64 word.now }
{
    let Some(first) = word.first() else {
        return Err(NoLine);
    };
    if *first == b'0' && word.len() > 1 {
        return Err(NoLine);
    }
    decimal(word).ok_or(NoLine)
}

/// Does the same as `number64`, for a 32-bit number.
pub fn number32(word: &[u8]) -> Result<u32, NoLine>
    ensures { result_ok result ≡ number_of 32 word.now }
{
    u32::try_from(number64(word)?).ok().ok_or(NoLine)
}

/// Does the same as `number64`, for a 16-bit number.
pub fn number16(word: &[u8]) -> Result<u16, NoLine>
    ensures { result_ok result ≡ number_of 16 word.now }
{
    u16::try_from(number64(word)?).ok().ok_or(NoLine)
}

/// Does the same as `number64`, for an 8-bit number.
pub fn number8(word: &[u8]) -> Result<u8, NoLine>
    ensures { result_ok result ≡ number_of 8 word.now }
{
    u8::try_from(number64(word)?).ok().ok_or(NoLine)
}

// Returns the number before the first space, and the text after the space, if the space is among the first 19
// bytes. It reads each byte once, and the value needs no overflow check. `None` says nothing about the text.
#[inline(always)]
fn short_leading(text: &[u8]) -> Option<(u64, &[u8])>
    ensures { IfSome result (λ x. field (number_of 64) text.now ≡ Some (x.0, x.1.now)) }
{
    let [first, ..] = text else {
        return None;
    };
    if !first.is_ascii_digit() {
        return None;
    }
    let mut number = u64::from(*first - b'0');
    for i in 1..text.len().min(19) {
        let byte = text[i];
        if !byte.is_ascii_digit() {
            if byte == b' ' && (*first != b'0' || i == 1) {
                return Some((number, &text[i + 1..]));
            }
            return None;
        }
        number = number * 10 + u64::from(byte - b'0');
    }
    None
}

// Does the same as `leading64`, for numbers of any length. Out of line: the callers then contain only the code for short numbers.
#[inline(never)]
fn any_leading(text: &[u8]) -> Result<(u64, &[u8]), NoLine>
    ensures { MatchResult result (λ x. field (number_of 64) text.now ≡ Some (x.0, x.1.now)) (λ _. field (number_of 64) text.now ≡ None) }
{
    let (word, rest) = split(text)?;
    Ok((number64(word)?, rest))
}

/// Reads the word before the first space, as `number64` does. Returns the word's number, and the text after the space.
#[inline(always)]
pub fn leading64(text: &[u8]) -> Result<(u64, &[u8]), NoLine>
    ensures { MatchResult result (λ x. field (number_of 64) text.now ≡ Some (x.0, x.1.now)) (λ _. field (number_of 64) text.now ≡ None) }
{
    if let Some(read) = short_leading(text) {
        return Ok(read);
    }
    any_leading(text)
}

/// Does the same as `leading64`, for a 32-bit number.
#[inline(always)]
pub fn leading32(text: &[u8]) -> Result<(u32, &[u8]), NoLine>
    ensures { MatchResult result (λ x. field (number_of 32) text.now ≡ Some (x.0, x.1.now)) (λ _. field (number_of 32) text.now ≡ None) }
{
    let (number, rest) = leading64(text)?;
    match u32::try_from(number) {
        Ok(number) => Ok((number, rest)),
        Err(_) => Err(NoLine),
    }
}

/// Reads a word of eight hex digits as a 32-bit number.
pub fn ssrc(word: &[u8]) -> Result<u32, NoLine>
    ensures { result_ok result ≡ ssrc_of word.now }
{
    let mut bytes = [0u8; 4];
    match hex::decode_to_slice(word, &mut bytes) {
        Ok(()) => Ok(u32::from_be_bytes(bytes)),
        Err(_) => Err(NoLine),
    }
}
