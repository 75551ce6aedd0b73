// Cutting input into lines.
ghost use Rattle.std.specs.Prelude.{◌≡◌, ◌++◌, ◌+◌, ◌-◌, ◌≤◌, ◌<◌, Some, IsTrue, ℕ, length, take};
ghost use Rattle.memchr.specs.Find.{IsFirstByte, is_byte};
ghost use Rattle.sfu_driver.specs.Lines.{ends_in_cr, is_unended, line_scan, line_scan_end, without_cr};
ghost use Rattle.sfu_driver.specs.Scan.{Finds};

use crate::{Cut, Found, Last, MOST_UNIT};
use memchr::memchr;

/// Cuts input into lines. Each line ends with an LF. Only the last line may have no LF. A CR directly before the LF isn't part of the line's text. Before
/// its LF, a line has at most 4,200 bytes, including the CR.
#[derive(Clone, Copy, Debug, Drop)]
pub struct Lines;

// Returns whether the last byte is a CR.
#[inline(always)]
fn has_cr(bytes: &[u8]) -> bool
    ensures { result ≡ ends_in_cr bytes.now }
{
    match bytes.split_last() {
        Some((last, _)) => *last == b'\r',
        None => false,
    }
}

// Returns whether the last byte of `kept` followed by `came` is a CR.
#[inline(always)]
fn joined_cr(kept: &[u8], came: &[u8]) -> bool
    ensures { result ≡ ends_in_cr (kept.now ++ came.now) }
{
    if came.is_empty() {
        return has_cr(kept);
    }
    has_cr(came)
}

// Returns the length of a line's text in bytes: up to its LF, or up to the CR directly before the LF.
#[inline(always)]
fn text_len(kept: &[u8], came: &[u8]) -> usize
    requires { length kept.now + length came.now ≤ MOST_UNIT }
    ensures len { result ≡ length (without_cr (kept.now ++ came.now)) }
    ensures within { result ≤ length kept.now + length came.now }
{
    let all = kept.len() + came.len();
    if joined_cr(kept, came) {
        return all - 1;
    }
    all
}

// Returns the result for a line that is too long.
fn too_long(kept: &[u8], piece: &[u8]) -> Found
    requires kept { length kept.now ≤ MOST_UNIT }
    requires long { MOST_UNIT < length kept.now + length piece.now }
    requires unended { IsTrue (is_unended (take (MOST_UNIT + 1 - length kept.now) piece.now)) }
    ensures { (number : ℕ) → Finds (line_scan number) kept.now piece.now result }
{
    Found::Outside {
        count: MOST_UNIT - kept.len() + 1,
    }
}

// Returns the result for a line whose LF is at place `at` of the piece.
#[inline(always)]
fn end_line(kept: &[u8], piece: &[u8], at: usize) -> Found
    requires first { IsFirstByte (is_byte 10) piece.now (Some at) }
    requires short { length kept.now + at ≤ MOST_UNIT }
    ensures { (number : ℕ) → Finds (line_scan number) kept.now piece.now result }
{
    Found::Whole {
        count: at + 1,
        start: 0,
        end: text_len(kept, &piece[..at]),
    }
}

impl Cut for Lines {
    ghost scan = { line_scan };

    ghost scan_end = { line_scan_end };

    #[inline(always)]
    fn find(&self, _number: u64, kept: &[u8], piece: &[u8]) -> Found {
        match memchr(b'\n', piece) {
            Some(at) => {
                if kept.len() + at > MOST_UNIT {
                    return too_long(kept, piece);
                }
                end_line(kept, piece, at)
            }
            None => {
                if kept.len() + piece.len() > MOST_UNIT {
                    return too_long(kept, piece);
                }
                Found::More
            }
        }
    }

    fn find_last(&self, _number: u64, kept: &[u8]) -> Last {
        if kept.is_empty() {
            return Last::Nothing;
        }
        if kept.len() > MOST_UNIT {
            return Last::Outside;
        }
        Last::Whole { start: 0 }
    }
}
