//! Reads the words of a line, and writes a track's results as text.

ghost use Rattle.std.specs.Prelude.{◌<◌};

use sfu_base::{Dti, FrameMeaning, PacketBuf};
use std::alloc::{AllocError, Global};
use std::process::Abort;

/// Removes the text up to and including the first byte that equals `at`. Returns the removed text without this byte.
pub fn cut<'a>(text: &mut &'a [u8], at: u8) -> &'a [u8] {
    let all = *text;
    for (i, byte) in all.iter().enumerate() {
        if *byte == at {
            *text = &all[i + 1..];
            return &all[..i];
        }
    }
    *text = &[];
    all
}

/// Removes the next word, a decimal number, and returns the number.
pub fn number(text: &mut &[u8]) -> u32 {
    let mut n = 0u32;
    for digit in cut(text, b' ') {
        n = n
            .saturating_mul(10)
            .saturating_add(digit.saturating_sub(b'0') as u32);
    }
    n
}

fn hex_digit(digit: u8) -> u8
    ensures { result < 16 }
{
    match digit {
        b'0'..=b'9' => digit - b'0',
        b'a'..=b'f' => digit - b'a' + 10,
        _ => 0,
    }
}

/// Removes the next word, which consists of hex digits, and returns the bytes that the digits stand for.
pub fn hex(text: &mut &[u8]) -> PacketBuf {
    let mut out = PacketBuf::new();
    let digits = cut(text, b' ');
    for i in 0..digits.len() / 2 {
        let byte = 16 * hex_digit(digits[2 * i]) + hex_digit(digits[2 * i + 1]);
        put(&mut out, &[byte]);
    }
    out
}

/// Appends bytes to the buffer. If the buffer would then have more than 1,500 bytes, appends nothing.
pub fn put(out: &mut PacketBuf, bytes: &[u8]) {
    if out.bytes().len() + bytes.len() <= 1500 {
        out.append(bytes);
    }
}

// The codes of decode target indications (Appendix A).
fn codes(dtis: &[Dti; 32]) -> [u32; 32] {
    let mut out = [0; 32];
    for i in 0..32 {
        out[i] = dtis[i].code();
    }
    out
}

/// Returns a frame's meaning as text. The last digit of the mask stands for decode target 0.
pub fn frame_words(
    rt: &impl Abort,
    alloc: Global,
    meaning: &FrameMeaning,
) -> Result<String, AllocError> {
    let (targets, chains, refs) = (
        meaning.target_count as usize,
        meaning.chain_count as usize,
        meaning.ref_count as usize,
    );
    assert!(rt; targets <= 32 && chains <= 32 && refs <= 16);
    let key = if meaning.key { " key" } else { "" };
    let codes = codes(&meaning.dtis);
    format!(in alloc;
        "frame {} start {} epoch {}{key} mask {:b} layer {} {} dtis {:?} refs {:?} links {:?}",
        meaning.number,
        meaning.start,
        meaning.epoch,
        meaning.mask,
        meaning.spatial,
        meaning.temporal,
        &codes[..targets],
        &meaning.refs[..refs],
        &meaning.links[..chains]
    )
}

/// Appends a word. If it isn't the first word, a space is appended before it.
pub fn say(said: &mut String, word: &str) -> Result<(), AllocError> {
    if !said.is_empty() {
        said.push_str(" ")?;
    }
    said.push_str(word)
}
