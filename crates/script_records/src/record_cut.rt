// Cuts a script of records into its header and its records.
ghost use Rattle.std.specs.Prelude.{◌≡◌, ◌⊎◌, ◌++◌, ◌+◌, ◌≤◌, ◌<◌, ℕ, length, slice_index};
ghost use Rattle.sfu_driver.specs.Scan.{Finds};
ghost use Rattle.script_records.specs.RecordCut.{is_header, is_length, length_said, record_scan, record_scan_end};

use crate::kind::may_have_length;
use sfu_driver::{Cut, Found, Last, MOST_UNIT};

/// The header: the first bytes of a script of records.
pub const HEADER: &[u8] = b"\x00SF2";

/// The greatest number of bytes in a record's body.
const MOST_BODY: usize = 2061;

/// Cuts input into a header and records. A record ends at its last byte. If its length field or its kind is outside the grammar, the record ends right
/// after that field or kind.
#[derive(Clone, Copy, Debug, Drop)]
pub struct Records;

// Returns the byte at index `place` of `kept` followed by `came`.
#[inline(always)]
fn joined(kept: &[u8], came: &[u8], place: usize) -> u8
    requires { place < length kept.now + length came.now }
    ensures { result ≡ slice_index (kept.now ++ came.now) place }
{
    if place < kept.len() {
        return kept[place];
    }
    came[place - kept.len()]
}

// Returns the number of bytes that have to follow `kept` so that there are at least `total`, but at least 1.
#[inline(always)]
fn count_to(kept: &[u8], total: usize) -> usize
    ensures some { 0 < result }
    ensures reached { total ≤ length kept.now + result }
    ensures first { (n : ℕ) → length kept.now < n → n < length kept.now + result → n < total }
    ensures least { length kept.now + result ≤ length kept.now + 1 ⊎ length kept.now + result ≤ total }
{
    if total <= kept.len() {
        return 1;
    }
    total - kept.len()
}

// Returns whether the first four bytes are the header's.
fn has_header(kept: &[u8], came: &[u8]) -> bool
    requires { 4 ≤ length kept.now + length came.now }
    ensures { result ≡ is_header (slice_index (kept.now ++ came.now) 0) (slice_index (kept.now ++ came.now) 1) (slice_index (kept.now ++ came.now) 2)
        (slice_index (kept.now ++ came.now) 3) }
{
    joined(kept, came, 0) == 0
        && joined(kept, came, 1) == 83
        && joined(kept, came, 2) == 70
        && joined(kept, came, 3) == 50
}

// Returns the length of the body in bytes: the two bytes before the body, as a number in network byte order.
#[inline(always)]
fn body_length(kept: &[u8], came: &[u8]) -> usize
    requires { 2 ≤ length kept.now + length came.now }
    ensures { result ≡ length_said (slice_index (kept.now ++ came.now) 0) (slice_index (kept.now ++ came.now) 1) }
{
    usize::from(joined(kept, came, 0)) * 256 + usize::from(joined(kept, came, 1))
}

fn is_body_length(count: usize) -> bool
    ensures { result ≡ is_length count }
{
    1 <= count && count <= MOST_BODY
}

// Finds the header's end.
fn find_header(kept: &[u8], piece: &[u8]) -> Found
    requires kept { length kept.now ≤ MOST_UNIT }
    requires some { 0 < length piece.now }
    ensures { Finds (record_scan 0) kept.now piece.now result }
{
    if kept.len() + piece.len() < HEADER.len() {
        return Found::More;
    }
    let count = count_to(kept, HEADER.len());
    if kept.len() >= HEADER.len() {
        return Found::Outside { count };
    }
    if !has_header(kept, piece) {
        return Found::Outside { count };
    }
    Found::Whole {
        count,
        start: 0,
        end: HEADER.len(),
    }
}

// Finds the end of a record.
fn find_record(kept: &[u8], piece: &[u8]) -> Found
    requires kept { length kept.now ≤ MOST_UNIT }
    requires some { 0 < length piece.now }
    ensures { (number : ℕ) → 0 < number → Finds (record_scan number) kept.now piece.now result }
{
    let total = kept.len() + piece.len();
    if total < 2 {
        return Found::More;
    }
    let length = body_length(kept, piece);
    if !is_body_length(length) {
        return Found::Outside {
            count: count_to(kept, 2),
        };
    }
    if total < 3 {
        return Found::More;
    }
    if !may_have_length(joined(kept, piece, 2), length) {
        return Found::Outside {
            count: count_to(kept, 3),
        };
    }
    if total < length + 2 {
        return Found::More;
    }
    let count = count_to(kept, length + 2);
    Found::Whole {
        count,
        start: 2,
        end: kept.len() + count,
    }
}

impl Cut for Records {
    ghost scan = { record_scan };

    ghost scan_end = { record_scan_end };

    fn find(&self, number: u64, kept: &[u8], piece: &[u8]) -> Found {
        if piece.is_empty() {
            return Found::More;
        }
        if number == 0 {
            return find_header(kept, piece);
        }
        find_record(kept, piece)
    }

    fn find_last(&self, number: u64, kept: &[u8]) -> Last {
        if kept.is_empty() && number != 0 {
            return Last::Nothing;
        }
        Last::Outside
    }
}
