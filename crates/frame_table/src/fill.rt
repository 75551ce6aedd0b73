// Fills the arrays of a frame's meaning. `select_unpredictable` reads every item, whether it is used or not. With an `if`, the compiler would
// branch at each place.

ghost use Rattle.std.specs.Prelude.{◌≡◌, ◌<◌, ◌≤◌, ◌++◌, false, length, nat_lt, replicate, take, true, None};
ghost use Rattle.sfu_base.specs.declared.frame.Dti.TheVariants.{NotPresent};
ghost use Rattle.dd_layout.specs.Layouts.{filled_up, pairs_below};

use dd_structure::Structure;
use sfu_base::{Dti, Wish};
use std::hint::select_unpredictable;

// 32 places that are used, and 32 that aren't.
const COUNTED: &[bool; 64] = &[
    true, true, true, true, true, true, true, true, true, true, true, true, true, true, true, true,
    true, true, true, true, true, true, true, true, true, true, true, true, true, true, true, true,
    false, false, false, false, false, false, false, false, false, false, false, false, false,
    false, false, false, false, false, false, false, false, false, false, false, false, false,
    false, false, false, false, false, false,
];

// Whether a place is among the first `count` places. `row` is 32 times true and then 32 times false.
#[inline(always)]
fn counts_in(row: &[bool; 64], place: u8, count: u8) -> bool
    requires row { row.now ≡ replicate 32 true ++ replicate 32 false }
    requires place { place < 32 }
    requires count { count ≤ 32 }
    ensures { result ≡ nat_lt place count }
{
    row[32 - usize::from(count) + usize::from(place)]
}

// Whether a place is among the first `count` places. This is a look-up and not a comparison, so that the compiler does many at once.
#[inline(always)]
fn counts(place: u8, count: u8) -> bool
    requires place { place < 32 }
    requires count { count ≤ 32 }
    ensures { result ≡ nat_lt place count }
{
    counts_in(COUNTED, place, count)
}

/// Returns the first `count` indications of `row`, and `NotPresent` in all other places. Every place is written, because the compiler can then write many
/// places at once.
pub fn prefix_indications(row: &[Dti; 32], count: u8) -> [Dti; 32]
    requires { count ≤ 32 }
    ensures { result ≡ filled_up 32 NotPresent (take count row.now) }
{
    let mut out = [Dti::NotPresent; 32];
    for place in 0..32u8 {
        let index = usize::from(place);
        out[index] = select_unpredictable(counts(place, count), row[index], Dti::NotPresent);
    }
    out
}

/// Returns the first `count` numbers of `row`, and 0 in all other places. Every place is written, because the compiler can then write many places at once.
pub fn prefix_numbers(row: &[u8; 32], count: u8) -> [u8; 32]
    requires { count ≤ 32 }
    ensures { result ≡ filled_up 32 0 (take count row.now) }
{
    let mut out = [0; 32];
    for place in 0..32u8 {
        let index = usize::from(place);
        out[index] = select_unpredictable(counts(place, count), row[index], 0);
    }
    out
}

/// Returns the first `count` distances of `row`, and 0 in all other places. Every place is written, because the compiler can then write many places at
/// once. `count` is at most 16, the length of the row.
pub fn prefix_distances(row: &[u16; 16], count: u8) -> [u16; 16]
    requires { count ≤ 16 }
    ensures filled { result ≡ filled_up 16 0 (take count row.now) }
    ensures counted { length (take count row.now) ≡ count }
{
    let mut out = [0; 16];
    for place in 0..16u8 {
        let index = usize::from(place);
        out[index] = select_unpredictable(counts(place, count), row[index], 0);
    }
    out
}

/// Returns the numbers of `row`, and 0 in all other places.
pub fn filled_numbers(row: &[u8]) -> [u8; 32]
    requires { length row.now ≤ 32 }
    ensures { result ≡ filled_up 32 0 row.now }
{
    let mut out = [0; 32];
    out[..row.len()].copy_from_slice(row);
    out
}

/// Returns the greatest spatial id and the greatest temporal id of each decode target of the structure. All places after the last target are `None`.
pub fn filled_pairs(structure: &Structure) -> [Option<Wish>; 32]
    ensures { result ≡ filled_up 32 None (pairs_below structure.now structure.now.target_count) }
{
    let mut out = [None; 32];
    for target in 0..structure.target_count() {
        out[target as usize] = structure.pair(target);
    }
    out
}
