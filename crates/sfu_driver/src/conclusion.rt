// The status of a command.
ghost use Rattle.std.specs.Prelude.{◌≡◌, ◌≤◌, ℕ, List, Option, take};
ghost use Rattle.std.specs.Io.KnownBytes.{Consumes, IsAtEnd};
ghost use Rattle.sfu_driver.specs.Outcome.{takes};
ghost use Rattle.sfu_driver.specs.Point.{Point, byte, due};
ghost use Rattle.sfu_driver.specs.Statuses.{Statuses, StatusesBehind, due_of, number_of};
ghost use Rattle.sfu_driver.specs.Units.{StandsAt, rule_of};

use crate::{Cut, Judge, MOST_PIECE, Status, Units, drive, drive_behind};
use sfu_base::{Sink, Source};
use std::alloc::Global;

/// Reads the whole input of a command, writes the texts that are due, and returns the status.
pub fn answer<C: Cut, J: Judge, S: Source, K: Sink>(
    alloc: Global,
    units: &mut Units<C, J>,
    source: &mut S,
    sink: &mut K,
) -> Status
    ensures { (point : Point J.State) → StandsAt J.stands units.old point
        → Statuses (λ bytes. due_of (due (rule_of C.scan C.scan_end J.step J.outside J.closing) point bytes))
        (λ taken. due_of (takes (byte (rule_of C.scan C.scan_end J.step J.outside J.closing)) point taken))
        (S.left source.old) (S.left source.new) (K.written sink.old) (K.written sink.new) (S.faults source.old) (S.faults source.new)
        (K.faults sink.old) (K.faults sink.new) (number_of result) }
{
    Status::of(drive(alloc, units, source, sink))
}

/// Does the same as [`answer`] if the first `first` bytes of the input were already read into the start of `piece`. `first` is 0 only if the input has
/// ended.
pub fn answer_behind<C: Cut, J: Judge, S: Source, K: Sink>(
    alloc: Global,
    units: &mut Units<C, J>,
    piece: &mut [u8; MOST_PIECE],
    first: usize,
    source: &mut S,
    sink: &mut K,
) -> Status
    requires within { first ≤ MOST_PIECE }
    requires end { first ≡ 0 → IsAtEnd (S.left source.old) }
    ensures { (left : Option (List ℕ)) (reads : ℕ) (point : Point J.State) → Consumes left (S.left source.old) (take first piece.old)
        → S.faults source.old ≡ reads
        → StandsAt J.stands units.old point
        → StatusesBehind (take first piece.old) (λ bytes. due_of (due (rule_of C.scan C.scan_end J.step J.outside J.closing) point bytes))
        (λ taken. due_of (takes (byte (rule_of C.scan C.scan_end J.step J.outside J.closing)) point taken))
        left (S.left source.new) (K.written sink.old) (K.written sink.new) reads (S.faults source.new) (K.faults sink.old) (K.faults sink.new)
        (number_of result) }
{
    Status::of(drive_behind(alloc, units, piece, first, source, sink))
}
