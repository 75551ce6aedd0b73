// A set of places.
ghost use Rattle.std.specs.Prelude.{◌≡◌, ◌<◌, ◌*◌, ℕ, IfSome, true, false};
ghost use Rattle.place_set.specs.Places.{ChangesPlace, IsFirstFrom, IsLowest, has_place};

use std::marker::Model;

/// The number of places. The places are 0 to 255.
const PLACES: usize = 256;

/// The number of words in a set. Each word has `WORD_BITS` bits.
const WORDS: usize = 4;

const WORD_BITS: usize = 64;

/// A set of places below 256. Contracts see the set's four words, and `has_place` says which places are in the set.
#[derive(Debug, Drop)]
pub struct PlaceSet {
    words: [u64; WORDS],
}

impl Model for PlaceSet {
    ghost use Rattle.std.specs.Prelude.{List, ℕ};

    ghost Value = { List ℕ };

    ghost view = { λ s. s.words };
}

impl PlaceSet {
    /// Returns the empty set.
    pub fn new() -> PlaceSet
        ensures { (place : ℕ) → has_place result place ≡ false }
    {
        PlaceSet { words: [0; WORDS] }
    }

    /// Puts a place into the set.
    pub fn put(&mut self, place: usize)
        requires { place < 256 }
        ensures { ChangesPlace self.old self.new place true }
    {
        self.words[place / WORD_BITS] |= 1 << (place % WORD_BITS);
    }

    /// Removes a place from the set.
    pub fn take(&mut self, place: usize)
        requires { place < 256 }
        ensures { ChangesPlace self.old self.new place false }
    {
        self.words[place / WORD_BITS] &= !(1 << (place % WORD_BITS));
    }

    /// Returns the lowest place in the set, counting only `from` and higher places. Returns `None` if there is none.
    #[inline(always)]
    pub fn first_from(&self, from: usize) -> Option<usize>
        ensures first { IsFirstFrom self.now from result }
        ensures below { IfSome result (λ place. place < 256) }
    {
        let words = &self.words;
        if from >= PLACES {
            return None;
        }
        let at = from / WORD_BITS;
        if let Some(bit) = lowest(words[at] & (u64::MAX << (from % WORD_BITS))) {
            return Some(at * WORD_BITS + bit);
        }
        first_behind(words, at + 1)
    }
}

// Returns the least place of the set in word `from` or a later word.
fn first_behind(words: &[u64; WORDS], from: usize) -> Option<usize>
    ensures first { IsFirstFrom words.now (64 * from) result }
    ensures below { IfSome result (λ place. place < 256) }
{
    for at in from..WORDS {
        if let Some(bit) = lowest(words[at]) {
            return Some(at * WORD_BITS + bit);
        }
    }
    None
}

// Returns the index of the lowest bit of a word that is 1, or `None` if the word is 0.
#[inline(always)]
fn lowest(word: u64) -> Option<usize>
    ensures { IsLowest word result }
{
    if word == 0 {
        None
    } else {
        Some(word.trailing_zeros() as usize)
    }
}
