// The window over the frame numbers.
ghost use Rattle.std.specs.Prelude.{◌≡◌, ◌∷◌, ℕ, List, []};
ghost use Rattle.ref_window.specs.Numbers.{AreBelow, AreExactlyBelow, IsAboveAll, held_of, is_among};

use crate::words::{SPAN, WORD_BITS, WORDS, Words, bit, clear_all, move_on};
use std::marker::Model;

/// The numbers that were inserted since the last reset, except those more than 4,096 below the greatest. Contracts see the window as the list of the
/// numbers that it contains, the newest first.
#[derive(Debug, Drop)]
pub struct RefWindow {
    // the greatest number, and bits for the numbers below it; meaningless if the window is empty
    greatest: u64,
    words: Words,
    // a second copy of the newest part: bit d (bit 0 is the lowest) is set exactly if the window contains `greatest - d`; 0 if the window is empty
    recent: u64,
}

impl Model for RefWindow {
    ghost use Rattle.std.specs.Prelude.{List, ℕ};
    ghost use Rattle.ref_window.specs.Words.{AreRecent, greatest_of, held_in};

    ghost Value = { List ℕ };

    ghost view = { λ w. held_in (greatest_of w.greatest w.recent) w.words };

    ghost invariant = { λ w. AreRecent (greatest_of w.greatest w.recent) w.words w.recent };
}

impl RefWindow {
    /// Returns an empty window.
    pub fn new() -> RefWindow
        ensures { result ≡ [] }
    {
        RefWindow {
            greatest: 0,
            words: [0; WORDS],
            recent: 0,
        }
    }

    /// Whether the window contains `number`.
    pub fn holds(&self, number: u64) -> bool
        ensures { result ≡ is_among self.now number }
    {
        if self.recent == 0 {
            return false;
        }
        if number >= self.greatest {
            return number == self.greatest;
        }
        self.greatest - number <= SPAN && bit(&self.words, number)
    }

    /// Returns a bit mask that says which of the 63 numbers below `number` the window contains. Suppose that `number` is above all numbers in the window.
    /// Then, for each d from 1 to 63, bit d is set exactly if the window contains `number - d`. Bit 0, the lowest bit, is never set. If `number` isn't
    /// above all numbers in the window, the mask is 0.
    #[inline(always)]
    pub fn right_below(&self, number: u64) -> u64
        ensures held { AreBelow self.now number result }
        ensures exact { IsAboveAll number self.now → AreExactlyBelow self.now number result }
        ensures others { (IsAboveAll number self.now → ⊥) → result ≡ 0 }
    {
        if number <= self.greatest || number - self.greatest >= WORD_BITS {
            return 0;
        }
        self.recent << (number - self.greatest)
    }

    /// Inserts `number` if it is above all numbers inserted since the last reset, and then forgets all numbers more than 4,096 below `number`. Otherwise
    /// nothing changes.
    pub fn insert(&mut self, number: u64)
        ensures inserted { IsAboveAll number self.old → self.new ≡ held_of (number ∷ self.old) }
        ensures refused { (IsAboveAll number self.old → ⊥) → self.new ≡ self.old }
        ensures stands { (numbers : List ℕ) → self.old ≡ held_of numbers → IsAboveAll number numbers → self.new ≡ held_of (number ∷ numbers) }
    {
        if self.recent == 0 {
            self.begin(number);
            return;
        }
        if number <= self.greatest {
            return;
        }
        self.recent = self.right_below(number) | 1;
        move_on(&mut self.words, self.greatest, number);
        self.greatest = number;
    }

    // Inserts the first number. Out of line: it clears the ring.
    #[inline(never)]
    fn begin(&mut self, number: u64)
        ensures { self.new ≡ number ∷ [] }
    {
        clear_all(&mut self.words);
        self.greatest = number;
        self.recent = 1;
    }

    /// Forgets all numbers.
    pub fn reset(&mut self)
        ensures { self.new ≡ [] }
    {
        self.recent = 0;
    }
}

impl Default for RefWindow {
    ghost use Rattle.std.specs.Prelude.{◌≡◌, []};

    ghost is_default = { λ window. window ≡ [] };

    fn default() -> RefWindow {
        RefWindow::new()
    }
}
