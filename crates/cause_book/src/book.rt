// The book of verdicts.
ghost use Rattle.std.specs.Prelude.{◌≡◌, ◌≢◌, ◌<◌, ◌≤◌, ◌+◌, ◌%◌, ◌∷◌, [], IfOk, List, false, is_some, length, true, vec_len};
ghost use Rattle.std.specs.Vec.{vec_capacity};
ghost use Rattle.forwarding_model.specs.forwarding.Causes.{is_ahead, newest_number};
ghost use Rattle.cause_book.specs.Book.{AreFalling, IsAboveAll, IsAfter, Steps, judged, recent};
ghost use Rattle.cause_book.specs.Slots.{AreAlike, IsNextAbove, IsNextBelow, step_at};

use crate::entry::Entry;
use sfu_base::{NoMemory, Refusal, Step, Verdict};
use std::alloc::Global;
use std::marker::Model;

/// How many frame numbers the book covers. The newest frame number is the last of them (own rule).
const SPAN: u64 = 4096;

/// The verdicts on the frames with the last 4,096 frame numbers. A verdict says whether a frame was forwarded, and why. Contracts see the book as a list
/// of steps, the newest first. A step is a frame number with the verdict on that frame.
#[derive(Debug, Drop)]
pub struct CauseBook {
    newest: Option<u64>,
    // The verdict on a frame is at the index that is its number plus `shift`, modulo 4,096. A new verdict replaces the earlier entry at its index.
    // `shift` puts the first verdict at index 0, and entries are only made up to the one that is written. So a new book touches little memory.
    steps: Vec<Entry>,
    shift: u64,
}

impl Model for CauseBook {
    ghost use Rattle.std.specs.Prelude.{List};
    ghost use Rattle.sfu_base.specs.declared.frame.Step.{Step};

    ghost Value = { List Step };

    ghost use Rattle.cause_book.specs.Kept.{IsBook, seen};

    ghost view = { seen };

    ghost invariant = { IsBook };
}

impl CauseBook {
    /// A book without verdicts. Returns `NoMemory` if memory runs out. No later call allocates memory.
    pub fn new(alloc: Global) -> Result<CauseBook, NoMemory>
        ensures { IfOk result (λ book. book ≡ []) }
    {
        let Ok(steps) = Vec::with_capacity(alloc, SPAN as usize) else {
            return Err(NoMemory);
        };
        Ok(CauseBook {
            newest: None,
            steps,
            shift: 0,
        })
    }

    /// Writes the verdict on the frame with this number. Then forgets the verdicts on numbers that are 4,096 or more below it. Changes nothing if a
    /// verdict on this number or on a higher one was written before.
    pub fn write(&mut self, number: u64, verdict: Verdict)
        ensures written { IsAboveAll number self.old → self.new ≡ recent (record { number = number; verdict = verdict } ∷ self.old) }
        ensures unchanged { is_ahead (newest_number self.old) number ≡ false → self.new ≡ self.old }
        ensures stands { (steps : Steps) → IsAfter self.old steps → IsAboveAll number steps
            → IsAfter self.new (record { number = number; verdict = verdict } ∷ steps) }
    {
        if let Some(newest) = self.newest {
            if number <= newest {
                return;
            }
        }
        self.shift = shift_for(&self.steps, self.shift, number);
        let place = place_of(self.shift, number);
        reach(&mut self.steps, place);
        self.steps[place] = Entry::new(number, verdict);
        self.newest = Some(number);
    }

    /// Returns the verdict on the frame with this number, or `Hole` if no frame has this number. Returns `Ahead` if the number is above the newest number,
    /// or if no verdict was written. Returns `TooOld` if the number is 4,096 or more below the newest number. The verdict on a frame is found in constant
    /// time. For a hole, the search runs down from the number to the nearest frame, and then up from the number to the nearest frame.
    pub fn verdict(&self, number: u64) -> Result<Verdict, Refusal>
        ensures judged { result ≡ judged self.now number }
        ensures stands { (steps : Steps) → IsAfter self.now steps → AreFalling steps → result ≡ judged steps number }
    {
        let Some(newest) = self.newest else {
            return Err(Refusal::Ahead { newest: None });
        };
        if number > newest {
            return Err(Refusal::Ahead {
                newest: Some(newest),
            });
        }
        if newest - number >= SPAN {
            return Err(Refusal::TooOld {
                oldest: newest - (SPAN - 1),
            });
        }
        if let Some(step) = step_in(&self.steps, self.shift, number) {
            return Ok(step.verdict);
        }
        let lowest = newest.saturating_sub(SPAN - 1);
        Ok(Verdict::Hole {
            below: next_below(&self.steps, self.shift, lowest, number),
            above: next_above(&self.steps, self.shift, number, newest),
        })
    }
}

// The shift that puts the entry of this number at index 0 if there are no entries, otherwise `shift`.
#[inline(always)]
fn shift_for(steps: &[Entry], shift: u64, number: u64) -> u64
    ensures { steps.now ≢ [] → result ≡ shift }
{
    if steps.is_empty() {
        SPAN - number % SPAN
    } else {
        shift
    }
}

// The index of this number's entry.
#[inline(always)]
fn place_of(shift: u64, number: u64) -> usize
    ensures { result ≡ (number + shift) % 4096 }
{
    (number.wrapping_add(shift) % SPAN) as usize
}

// Appends empty entries until there is an entry at this place.
#[inline(always)]
fn reach(steps: &mut Vec<Entry>, place: usize)
    requires place { place < 4096 }
    requires few { vec_len steps.old ≤ 4096 }
    requires capacity { 4096 ≤ vec_capacity steps.old }
    ensures made { place < length steps.new.items }
    ensures few { vec_len steps.new ≤ 4096 }
    ensures capacity { 4096 ≤ vec_capacity steps.new }
    ensures same { AreAlike steps.old.items steps.new.items }
{
    if steps.len() <= place {
        append(steps, place);
    }
}

// Does what `reach` does. Out of line: it runs only once for each place.
#[inline(never)]
fn append(steps: &mut Vec<Entry>, place: usize)
    requires place { place < 4096 }
    requires few { vec_len steps.old ≤ 4096 }
    requires capacity { 4096 ≤ vec_capacity steps.old }
    ensures made { place < length steps.new.items }
    ensures few { vec_len steps.new ≤ 4096 }
    ensures capacity { 4096 ≤ vec_capacity steps.new }
    ensures same { AreAlike steps.old.items steps.new.items }
{
    while steps.len() <= place {
        steps.push_reserved(Entry::nothing());
    }
}

// The step with this number, if the book still has it.
fn step_in(steps: &[Entry], shift: u64, number: u64) -> Option<Step>
    ensures { result ≡ step_at shift steps.now number }
{
    match steps.get(place_of(shift, number))?.step() {
        Some(step) if step.number == number => Some(step),
        _ => None,
    }
}

// The least number above `number` that has a step. Such a number exists, since `newest` has a step.
fn next_above(steps: &[Entry], shift: u64, number: u64, newest: u64) -> u64
    requires lower { number < newest }
    requires newest { is_some (step_at shift steps.now newest) ≡ true }
    ensures { IsNextAbove shift steps.now number result }
{
    for above in number + 1..newest {
        if step_in(steps, shift, above).is_some() {
            return above;
        }
    }
    newest
}

// The greatest number in `lowest..number` that has a step, or `None` if none has.
fn next_below(steps: &[Entry], shift: u64, lowest: u64, number: u64) -> Option<u64>
    requires { lowest ≤ number }
    ensures { IsNextBelow shift steps.now lowest number result }
{
    for below in (lowest..number).rev() {
        if step_in(steps, shift, below).is_some() {
            return Some(below);
        }
    }
    None
}
