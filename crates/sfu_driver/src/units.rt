// Assembling units from pieces of any size, and judging them one after another.
ghost use Rattle.std.specs.Prelude.{◌≤◌, ◌+◌, length};
ghost use Rattle.sfu_driver.specs.declared.cut.TheConstants.{MOST_UNIT};
ghost use Rattle.sfu_driver.specs.declared.units.TheConstants.{CAPACITY, MOST_UNITS};

use crate::{Cut, Ending, Found, Halt, Judge, Last, MOST_UNIT};
use sfu_base::{Blob, FixedBuf, NoMemory};

/// The capacity, in bytes, of the buffer for a unit. It suffices for the longest unit and the byte that ends the unit.
const CAPACITY: usize = 4201;

/// A unit's number is at most this.
const MOST_UNITS: u64 = 4_294_967_295;

/// The state of a command's input loop: the way to cut the input, the judge of the units, the number of the current unit, and the current unit's bytes so
/// far.
#[derive(Debug, Drop)]
pub struct Units<C, J> {
    pub cut: C,
    pub judge: J,
    pub number: u64,
    pub kept: FixedBuf<CAPACITY>,
    ghost bounded: { number ≤ MOST_UNITS + 1 },
    ghost short: { length kept ≤ MOST_UNIT },
}

impl<C: Cut, J: Judge> Units<C, J> {
    ghost use Rattle.std.specs.Prelude.{◌≡◌, ◌<◌, ◌++◌, [], Err, IfOk, OnErr, OnOk};
    ghost use Rattle.sfu_driver.specs.Drive.{Judges, Nexts};
    ghost use Rattle.sfu_driver.specs.Point.{Point, byte, ended, ends, is_outside, judged};
    ghost use Rattle.sfu_driver.specs.Scan.{Whole, between};
    ghost use Rattle.sfu_driver.specs.Units.{JudgeStands, StandsAt, progress, rule_of};

    /// Returns the state before any input was read. The first unit gets the number `number`.
    pub fn new(cut: C, judge: J, number: u64) -> Self
        requires { number ≤ 1 }
        ensures judge { result.judge ≡ judge }
        ensures number { result.number ≡ number }
        ensures kept { result.kept ≡ [] }
    {
        Units {
            cut,
            judge,
            number,
            kept: FixedBuf::new(),
        }
    }

    // Appends the last text, because the unit is outside the grammar, and returns why the command ends.
    fn refuse(&self, ready: &mut Blob) -> Halt
        ensures judges { (state : J.State) → Judges J.stands (is_outside {S = J.State} (J.outside self.now.number)) self.now.judge ready.old ready.new
            (Err result) }
        ensures grows { length ready.old ≤ length ready.new }
    {
        match self.judge.refuse(self.number, ready) {
            Ok(()) => Halt::Ended(Ending::Outside),
            Err(NoMemory) => Halt::Starved,
        }
    }

    // Begins the next unit.
    #[inline(always)]
    fn begin(&mut self)
        requires { self.old.number ≤ MOST_UNITS }
        ensures judge { self.new.judge ≡ self.old.judge }
        ensures number { self.new.number ≡ self.old.number + 1 }
        ensures kept { self.new.kept ≡ [] }
    {
        self.number += 1;
        self.kept.clear();
    }

    // Judges the unit that consists of the kept bytes and then `came`. Its text is the bytes from `start` to `end`.
    #[inline(always)]
    fn judge_between(
        &mut self,
        came: &[u8],
        start: usize,
        end: usize,
        ready: &mut Blob,
    ) -> Result<(), Halt>
        requires numbered { self.old.number ≤ MOST_UNITS }
        requires fits { length self.old.kept + length came.now ≤ CAPACITY }
        requires order { start ≤ end }
        requires within { end ≤ length self.old.kept + length came.now }
        ensures judges { (state : J.State) → J.stands self.old.judge state
            → Judges J.stands (J.step state self.old.number (between start end (self.old.kept ++ came.now))) self.new.judge ready.old ready.new result }
        ensures number { self.new.number ≡ self.old.number }
        ensures grows { length ready.old ≤ length ready.new }
    {
        let number = self.number as u32;
        if self.kept.is_empty() {
            return self.judge.judge(number, &came[start..end], ready);
        }
        self.kept.append(came);
        let result = self
            .judge
            .judge(number, &self.kept.bytes()[start..end], ready);
        self.kept.clear();
        result
    }

    // Judges a unit that has ended.
    #[inline(always)]
    fn end_unit(
        &mut self,
        came: &[u8],
        start: usize,
        end: usize,
        ready: &mut Blob,
    ) -> Result<(), Halt>
        requires fits { length self.old.kept + length came.now ≤ CAPACITY }
        requires order { start ≤ end }
        requires within { end ≤ length self.old.kept + length came.now }
        ensures judges { (state : J.State) → J.stands self.old.judge state
            → Judges (StandsAt J.stands) (ended (rule_of C.scan C.scan_end J.step J.outside J.closing) state self.old.number
            (Whole (between start end (self.old.kept ++ came.now)))) self.new ready.old ready.new result }
        ensures number { OnErr result (self.new.number ≡ self.old.number) }
        ensures progress { OnOk result (progress self.old + length came.now ≤ progress self.new) }
        ensures grows { length ready.old ≤ length ready.new }
    {
        if self.number > MOST_UNITS {
            return Err(self.refuse(ready));
        }
        self.judge_between(came, start, end, ready)?;
        self.begin();
        Ok(())
    }

    /// Takes bytes from the start of a piece until the current unit ends or the piece ends. Judges the unit if it has ended. Returns how many bytes were
    /// taken.
    #[inline(always)]
    pub fn next(&mut self, piece: &[u8], ready: &mut Blob) -> Result<usize, Halt>
        requires { 0 < length piece.now }
        ensures nexts { (point : Point J.State) → StandsAt J.stands self.old point
            → Nexts (StandsAt J.stands) (byte (rule_of C.scan C.scan_end J.step J.outside J.closing)) point piece.now self.new ready.old ready.new result }
        ensures used { IfOk result (λ count. 0 < count) }
        ensures within { IfOk result (λ count. count ≤ length piece.now) }
        ensures number { OnErr result (self.new.number ≡ self.old.number) }
        ensures progress { IfOk result (λ count. progress self.old + count ≤ progress self.new) }
        ensures grows { length ready.old ≤ length ready.new }
    {
        match self.cut.find(self.number, self.kept.bytes(), piece) {
            Found::More => {
                self.kept.append(piece);
                Ok(piece.len())
            }
            Found::Whole { count, start, end } => {
                self.end_unit(&piece[..count], start, end, ready)?;
                Ok(count)
            }
            Found::Outside { .. } => Err(self.refuse(ready)),
        }
    }

    // Judges the bytes that remain at the end of the input.
    fn finish_unit(&mut self, ready: &mut Blob) -> Result<(), Halt>
        ensures judges { (point : Point J.State) → StandsAt J.stands self.old point
            → Judges J.stands (judged (rule_of C.scan C.scan_end J.step J.outside J.closing) point.state point.number
            (C.scan_end point.number point.kept)) self.new.judge ready.old ready.new result }
        ensures grows { length ready.old ≤ length ready.new }
    {
        match self.cut.find_last(self.number, self.kept.bytes()) {
            Last::Nothing => Ok(()),
            Last::Whole { start } => {
                let end = self.kept.len();
                self.end_unit(&[], start, end, ready)
            }
            Last::Outside => Err(self.refuse(ready)),
        }
    }

    /// Handles the end of the input: judges the remaining bytes as the last unit, and appends the closing text.
    pub fn finish(&mut self, ready: &mut Blob) -> Result<(), Halt>
        ensures judges { (point : Point J.State) → StandsAt J.stands self.old point
            → Judges (JudgeStands J.stands) (ends (rule_of C.scan C.scan_end J.step J.outside J.closing) point) self.new ready.old ready.new result }
    {
        let start = ready.bytes().len();
        self.finish_unit(ready)?;
        if let Err(NoMemory) = self.judge.close(ready) {
            ready.truncate(start);
            return Err(Halt::Starved);
        }
        Ok(())
    }
}
