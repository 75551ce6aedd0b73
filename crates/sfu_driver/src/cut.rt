// Cutting the input into units.
ghost use Rattle.std.specs.Prelude.{◌≤◌, ℕ, List, length};
ghost use Rattle.sfu_driver.specs.Scan.{Finds, FindsLast, Scan};

/// A unit has at most this many bytes, not counting the byte that ends it.
pub const MOST_UNIT: usize = 4200;

/// The result of a search for the end of a unit in a piece of the input.
#[derive(Clone, Copy, Debug, PartialEq, Eq)]
pub enum Found {
    /// The unit continues after the piece.
    More,
    /// The unit ends with the first `count` bytes of the piece. The unit's text is its bytes with indices `start..end`; `end` is excluded.
    Whole {
        count: usize,
        start: usize,
        end: usize,
    },
    /// The first `count` bytes of the piece show that the unit is outside the grammar.
    Outside {
        count: usize,
    },
}

/// The effect of the end of the input on the last unit.
#[derive(Clone, Copy, Debug, PartialEq, Eq)]
pub enum Last {
    /// No unit was begun.
    Nothing,
    /// The unit ends with the input. The unit's text is its bytes from index `start` on.
    Whole { start: usize },
    /// The unit is outside the grammar.
    Outside,
}

/// A way to cut input into units.
pub trait Cut {
    /// The effect of the next byte on a unit. The arguments are the unit's number, the unit's earlier bytes, and the next byte.
    ghost scan: { ℕ → List ℕ → ℕ → Scan };

    /// The effect of the end of the input on a unit. The arguments are the unit's number and the unit's bytes so far.
    ghost scan_end: { ℕ → List ℕ → Scan };

    /// Looks in a piece for the end of the unit with this number. `kept` has the unit's earlier bytes.
    fn find(&self, number: u64, kept: &[u8], piece: &[u8]) -> Found
        requires { length kept.now ≤ MOST_UNIT }
        ensures { Finds (scan number) kept.now piece.now result };

    /// Returns the effect of the end of the input on the unit with this number. `kept` has the unit's bytes.
    fn find_last(&self, number: u64, kept: &[u8]) -> Last
        ensures { FindsLast (scan_end number kept.now) kept.now result };
}
