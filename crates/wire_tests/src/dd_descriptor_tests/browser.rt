//! Reads the descriptors of a browser's encoder, and compares their contents with the values of an independent parser.

ghost use Rattle.std.specs.Prelude.{◌<◌};

use super::real::REAL;
use super::*;

/// Removes the text up to and including the first byte that equals `at`. Returns the removed text without this byte.
fn cut<'a>(text: &mut &'a [u8], at: u8) -> &'a [u8] {
    let all = *text;
    for (i, byte) in all.iter().enumerate() {
        if *byte == at {
            *text = &all[i + 1..];
            return &all[..i];
        }
    }
    *text = &[];
    all
}

fn number(text: &mut &[u8]) -> u16 {
    let mut n = 0u16;
    for digit in cut(text, b' ') {
        n = n
            .saturating_mul(10)
            .saturating_add(digit.saturating_sub(b'0') as u16);
    }
    n
}

fn flag(text: &mut &[u8]) -> bool {
    cut(text, b' ') == [b'1'].as_slice()
}

fn hex_digit(digit: u8) -> u8
    ensures { result < 16 }
{
    match digit {
        b'0'..=b'9' => digit - b'0',
        b'a'..=b'f' => digit - b'a' + 10,
        _ => 0,
    }
}

fn hex(text: &mut &[u8]) -> PacketBuf {
    let mut out = PacketBuf::new();
    let digits = cut(text, b' ');
    for i in 0..digits.len() / 2 {
        let byte = 16 * hex_digit(digits[2 * i]) + hex_digit(digits[2 * i + 1]);
        if out.bytes().len() < 2048 {
            out.append(&[byte]);
        }
    }
    out
}

/// Removes the next word, and returns its mask. The word's first digit stands for target 0. The word may also be `-`. If `carries` is true, `-` stands for
/// the mask of all targets. Otherwise `-` stands for no mask.
fn mask(text: &mut &[u8], carries: bool, targets: usize) -> Option<u32> {
    let word = cut(text, b' ');
    if word == [b'-'].as_slice() {
        return if carries {
            Some(u32::MAX >> (32 - targets.clamp(1, 32)))
        } else {
            None
        };
    }
    let mut mask = 0;
    for (i, bit) in word.iter().enumerate() {
        if *bit == b'1' && i < 32 {
            mask |= 1 << i;
        }
    }
    Some(mask)
}

/// Removes the next word, which is a list of at most 16 numbers. Returns the numbers and their count.
fn numbers(text: &mut &[u8]) -> ([u16; 16], usize) {
    let mut out = [0; 16];
    let mut count = 0;
    let mut word = cut(text, b' ');
    if word == [b'-'].as_slice() {
        return (out, 0);
    }
    for i in 0..16 {
        if word.is_empty() {
            break;
        }
        let mut item = cut(&mut word, b',');
        out[i] = number(&mut item);
        count = i + 1;
    }
    (out, count)
}

#[test]
fn descriptors_of_a_browsers_encoder_are_read_written_and_masked(
    rt: HostRuntime,
) -> Result<(), Fail> {
    let mut lines = REAL.as_bytes();
    for _ in 0..117 {
        expect_line(&rt, cut(&mut lines, b'\n'))?;
    }
    assert!(rt; lines.is_empty());
    Ok(())
}

/// Returns each number modulo 256, as a byte.
fn low_bytes(numbers: &[u16; 16]) -> [u8; 16] {
    let mut out = [0; 16];
    for i in 0..16 {
        out[i] = (numbers[i] % 256) as u8;
    }
    out
}

/// Returns the values of the first 32 digits.
fn digit_values(digits: &[u8]) -> [u8; 32] {
    let mut out = [0; 32];
    for (i, digit) in digits.iter().enumerate() {
        if i < 32 {
            out[i] = digit.saturating_sub(b'0');
        }
    }
    out
}

/// Reads a line's descriptor, and checks that it has the contents that the line gives. Writes the descriptor, reads it again, and checks the contents
/// again. Then puts each possible mask of the targets into the descriptor, and checks the contents with this mask.
fn expect_line(rt: &impl Abort, line: &[u8]) -> Result<(), Fail> {
    let mut text = line;
    let structure = hex(&mut text);
    let bytes = hex(&mut text);
    let start = flag(&mut text);
    let end = flag(&mut text);
    let template = (number(&mut text) % 64) as u8;
    let frame_number = number(&mut text);
    let carries = flag(&mut text);
    let mut mask_word = cut(&mut text, b' ');
    let custom = [flag(&mut text), flag(&mut text), flag(&mut text)];
    let spatial = (number(&mut text) % 8) as u8;
    let temporal = (number(&mut text) % 8) as u8;
    let digits = cut(&mut text, b' ');
    let (refs, ref_count) = numbers(&mut text);
    let (links, link_count) = numbers(&mut text);
    assert!(rt; ref_count <= 16 && link_count <= 16 && digits.len() <= 32);
    let said = Said {
        start,
        end,
        template,
        number: frame_number,
        mask: mask(&mut mask_word, carries, digits.len()),
        layer: (spatial, temporal),
        custom,
        dtis: &digit_values(digits)[..digits.len()],
        refs: &refs[..ref_count],
        links: &low_bytes(&links)[..link_count],
    };
    expect_real(rt, structure.bytes(), bytes.bytes(), carries, &said)
}

/// Puts each possible mask of the targets into the descriptor in turn. Each time, checks that the new descriptor has this mask, and otherwise the contents
/// `said`.
fn expect_masks(
    rt: &impl Abort,
    bytes: &[u8],
    structure: &Structure,
    said: &Said<'_>,
) -> Result<(), Fail> {
    assert!(rt; said.dtis.len() < 10);
    for mask in 0..1 << said.dtis.len() {
        let new = remasked(bytes, structure, mask)?;
        let found = read(new.bytes(), Some(structure))?;
        let masked = Said {
            mask: Some(mask),
            ..*said
        };
        expect(rt, &found, &masked);
    }
    Ok(())
}

fn expect_real(
    rt: &impl Abort,
    structure: &[u8],
    bytes: &[u8],
    carries: bool,
    said: &Said<'_>,
) -> Result<(), Fail> {
    if structure.is_empty() {
        assert!(rt; carries);
        expect_both_ways(rt, bytes, None, said)?;
        expect_masks(rt, bytes, &structure_of(bytes)?, said)?;
    } else {
        let force = structure_of(structure)?;
        assert_eq!(rt; read(bytes, Some(&force))?.structure.is_some(), carries);
        expect_both_ways(rt, bytes, Some(&force), said)?;
        expect_masks(rt, bytes, &force, said)?;
    }
    Ok(())
}
