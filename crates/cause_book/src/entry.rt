// One entry of the book.
ghost use Rattle.std.specs.Prelude.{◌≡◌, None, Some};

use sfu_base::{Step, Verdict};
use std::marker::Model;

/// A verdict, or `Nothing` in an empty entry. A value of this type takes at most three 64-bit words. `HoleAbove` is a hole with no frame below the hole.
#[derive(Clone, Copy, Debug)]
enum Kept {
    Nothing,
    Passed,
    NotOfTarget { target: Option<u8> },
    Behind { fdiff: u16, start: u64 },
    Reference { number: u64 },
    Full { queued: u16, needed: u16 },
    Link { at: u64, number: u64 },
    Unopened { since: u64 },
    Hole { below: u64, above: u64 },
    HoleAbove { above: u64 },
}

/// An entry of 32 bytes: a frame number with the verdict on that frame, or no step. Contracts see the entry as a step or `None`.
#[derive(Debug, Drop)]
pub struct Entry {
    number: u64,
    kept: Kept,
}

impl Model for Entry {
    ghost use Rattle.std.specs.Prelude.{Option};
    ghost use Rattle.sfu_base.specs.declared.frame.Step.{Step};

    ghost Value = { Option Step };

    ghost use Rattle.cause_book.specs.Entry.{step_of};

    ghost view = { step_of };
}

impl Entry {
    /// An entry without a step.
    pub fn nothing() -> Entry
        ensures { result ≡ None }
    {
        Entry {
            number: 0,
            kept: Kept::Nothing,
        }
    }

    /// The entry with the step of this frame number and this verdict.
    pub fn new(number: u64, verdict: Verdict) -> Entry
        ensures { result ≡ Some (record { number = number; verdict = verdict }) }
    {
        let kept = match verdict {
            Verdict::Passed => Kept::Passed,
            Verdict::NotOfTarget { target } => Kept::NotOfTarget { target },
            Verdict::Behind { fdiff, start } => Kept::Behind { fdiff, start },
            Verdict::Reference { number } => Kept::Reference { number },
            Verdict::Full { queued, needed } => Kept::Full { queued, needed },
            Verdict::Link { at, number } => Kept::Link { at, number },
            Verdict::Unopened { since } => Kept::Unopened { since },
            Verdict::Hole {
                below: Some(below),
                above,
            } => Kept::Hole { below, above },
            Verdict::Hole { below: None, above } => Kept::HoleAbove { above },
        };
        Entry { number, kept }
    }

    /// The step, if there is one.
    pub fn step(&self) -> Option<Step>
        ensures { result ≡ self.now }
    {
        let verdict = match self.kept {
            Kept::Nothing => return None,
            Kept::Passed => Verdict::Passed,
            Kept::NotOfTarget { target } => Verdict::NotOfTarget { target },
            Kept::Behind { fdiff, start } => Verdict::Behind { fdiff, start },
            Kept::Reference { number } => Verdict::Reference { number },
            Kept::Full { queued, needed } => Verdict::Full { queued, needed },
            Kept::Link { at, number } => Verdict::Link { at, number },
            Kept::Unopened { since } => Verdict::Unopened { since },
            Kept::Hole { below, above } => Verdict::Hole {
                below: Some(below),
                above,
            },
            Kept::HoleAbove { above } => Verdict::Hole { below: None, above },
        };
        Some(Step {
            number: self.number,
            verdict,
        })
    }
}
