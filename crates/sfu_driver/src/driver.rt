// Passes input from the source to the units, and writes the texts to the sink.
ghost use Rattle.std.specs.Prelude.{◌≡◌, ◌≢◌, ◌≤◌, ◌<◌, ◌+◌, ℕ, List, Option, [], Ok, Err, OnOk, OnErr, IfOk, take, drop, length};
ghost use Rattle.std.specs.Io.KnownBytes.{Appends, Consumes, IsAtEnd};
ghost use Rattle.sfu_base.specs.Faults.{Rose};
ghost use Rattle.sfu_driver.specs.Drive.{CauseOf, CountsWrites, Drove, DroveBehind, EndsBy, Feeds, Halts, Starves, StopWrites, TookBehind, WritesPart};
ghost use Rattle.sfu_driver.specs.Point.{Point, byte, ends};
ghost use Rattle.sfu_driver.specs.Units.{IsAtUnit, JudgeStands, StandsAt, progress, rule_of};

use crate::sink::write_all;
use crate::{Cut, Halt, Interruption, Judge, Units};
use sfu_base::{Blob, Sink, Source};
use std::alloc::Global;

/// The greatest number of bytes that one read of a source returns.
pub const MOST_PIECE: usize = 65_536;

/// Buffered texts are written at the end of each piece of the input. In the middle of a piece, they are written once there are at least this many bytes of
/// them.
const MOST_READY: usize = 65_536;

// Writes all texts that are ready, and empties `ready`.
fn flush<K: Sink>(ready: &mut Blob, sink: &mut K) -> Result<(), Interruption>
    ensures ok { OnOk result (Appends (K.written sink.old) (K.written sink.new) ready.old) }
    ensures empty { OnOk result (ready.new ≡ []) }
    ensures fault { OnErr result (result ≡ Err Interruption.SinkFault) }
    ensures part { OnErr result (WritesPart (K.written sink.old) (K.written sink.new) ready.old) }
    ensures rose { OnErr result (Rose (K.faults sink.old) (K.faults sink.new)) }
    ensures counts { CountsWrites (K.faults sink.old) (K.faults sink.new) result }
    ensures never_falls { K.faults sink.old ≤ K.faults sink.new }
{
    match write_all(sink, ready.bytes()) {
        Ok(()) => {
            ready.clear();
            Ok(())
        }
        Err(_) => Err(Interruption::SinkFault),
    }
}

// Writes the texts that were due before the command ended, and then its last text. A failure of the sink in the last text doesn't change the result.
fn halt<K: Sink>(ready: &Blob, mark: usize, why: Halt, sink: &mut K) -> Interruption
    requires { mark ≤ length ready.now }
    ensures halts { Halts result why (take mark ready.now) (drop mark ready.now) (K.written sink.old) (K.written sink.new) (K.faults sink.old)
        (K.faults sink.new) }
    ensures counts { StopWrites (K.faults sink.old) (K.faults sink.new) result }
    ensures never_falls { K.faults sink.old ≤ K.faults sink.new }
{
    if write_all(sink, &ready.bytes()[..mark]).is_err() {
        return Interruption::SinkFault;
    }
    if let Halt::Ended(_) = why {
        let _ = write_all(sink, &ready.bytes()[mark..]);
    }
    Interruption::Halted(why)
}

// Judges at most one unit at the start of a piece, and returns the number of bytes taken.
#[inline(always)]
fn take_unit<C: Cut, J: Judge, K: Sink>(
    units: &mut Units<C, J>,
    ready: &mut Blob,
    sink: &mut K,
    piece: &[u8],
) -> Result<usize, Interruption>
    requires { 0 < length piece.now }
    ensures feeds { IfOk result (λ count. Feeds IsAtUnit (StandsAt J.stands) (byte (rule_of C.scan C.scan_end J.step J.outside J.closing)) units.old
        (take count piece.now) units.new ready.old ready.new
        (K.written sink.old) (K.written sink.new) (K.faults sink.old) (K.faults sink.new) (Ok tt)) }
    ensures stops { (stop : Interruption) → result ≡ Err stop
        → Feeds IsAtUnit (StandsAt J.stands) (byte (rule_of C.scan C.scan_end J.step J.outside J.closing)) units.old piece.now units.new ready.old ready.new
        (K.written sink.old) (K.written sink.new) (K.faults sink.old) (K.faults sink.new) (Err stop) }
    ensures used { IfOk result (λ count. 0 < count) }
    ensures within { IfOk result (λ count. count ≤ length piece.now) }
    ensures progress { IfOk result (λ count. progress units.old + count ≤ progress units.new) }
    ensures source { result ≢ Err Interruption.SourceFault }
    ensures sink { result ≡ Err Interruption.SinkFault → Rose (K.faults sink.old) (K.faults sink.new) }
    ensures counts { CountsWrites (K.faults sink.old) (K.faults sink.new) result }
    ensures never_falls { K.faults sink.old ≤ K.faults sink.new }
{
    let mark = ready.bytes().len();
    let count = match units.next(piece, ready) {
        Ok(count) => count,
        Err(why) => return Err(halt(ready, mark, why, sink)),
    };
    if ready.bytes().len() >= MOST_READY {
        flush(ready, sink)?;
    }
    Ok(count)
}

/// Takes a piece of the input, and writes the texts that are due for this piece.
fn feed<C: Cut, J: Judge, K: Sink>(
    units: &mut Units<C, J>,
    ready: &mut Blob,
    sink: &mut K,
    piece: &[u8],
) -> Result<(), Interruption>
    ensures feeds { Feeds IsAtUnit (StandsAt J.stands)
        (byte (rule_of C.scan C.scan_end J.step J.outside J.closing)) units.old piece.now units.new ready.old ready.new
        (K.written sink.old) (K.written sink.new) (K.faults sink.old) (K.faults sink.new) result }
    ensures progress { OnOk result (progress units.old + length piece.now ≤ progress units.new) }
    ensures written { OnOk result (ready.new ≡ []) }
    ensures source { result ≢ Err Interruption.SourceFault }
    ensures sink { result ≡ Err Interruption.SinkFault → Rose (K.faults sink.old) (K.faults sink.new) }
    ensures counts { CountsWrites (K.faults sink.old) (K.faults sink.new) result }
    ensures never_falls { K.faults sink.old ≤ K.faults sink.new }
{
    let mut rest = piece;
    while !rest.is_empty() {
        let count = take_unit(units, ready, sink, rest)?;
        rest = &rest[count..];
    }
    flush(ready, sink)
}

// Takes the first `first` bytes of `piece`, which were read before, and then the whole source, piece by piece.
fn take_all<C: Cut, J: Judge, S: Source, K: Sink>(
    units: &mut Units<C, J>,
    ready: &mut Blob,
    piece: &mut [u8; MOST_PIECE],
    first: usize,
    source: &mut S,
    sink: &mut K,
) -> Result<(), Interruption>
    requires ready { ready.old ≡ [] }
    requires within { first ≤ MOST_PIECE }
    requires end { first ≡ 0 → IsAtEnd (S.left source.old) }
    ensures took { (left : Option (List ℕ)) → Consumes left (S.left source.old) (take first piece.old)
        → TookBehind (take first piece.old) IsAtUnit (StandsAt J.stands)
        (byte (rule_of C.scan C.scan_end J.step J.outside J.closing)) units.old units.new ready.old ready.new left (S.left source.new)
        (K.written sink.old) (K.written sink.new) (K.faults sink.old) (K.faults sink.new) result }
    ensures end { OnOk result (IsAtEnd (S.left source.new)) }
    ensures written { OnOk result (ready.new ≡ []) }
    ensures cause { CauseOf (S.faults source.old) (S.faults source.new) (K.faults sink.old) (K.faults sink.new) result }
    ensures never_falls { K.faults sink.old ≤ K.faults sink.new }
{
    let mut count = first;
    while count > 0 {
        feed(units, ready, sink, &piece[..count])?;
        let Ok(next) = source.read(piece) else {
            return Err(Interruption::SourceFault);
        };
        count = next;
    }
    Ok(())
}

// Handles the end of the input, and writes the texts that are due.
fn finish<C: Cut, J: Judge, K: Sink>(
    units: &mut Units<C, J>,
    ready: &mut Blob,
    sink: &mut K,
) -> Result<(), Interruption>
    requires { ready.old ≡ [] }
    ensures ends { (point : Point J.State) → StandsAt J.stands units.old point
        → EndsBy (JudgeStands J.stands) (ends (rule_of C.scan C.scan_end J.step J.outside J.closing) point) units.new (K.written sink.old)
        (K.written sink.new) (K.faults sink.old) (K.faults sink.new) result }
    ensures source { result ≢ Err Interruption.SourceFault }
    ensures counts { CountsWrites (K.faults sink.old) (K.faults sink.new) result }
    ensures never_falls { K.faults sink.old ≤ K.faults sink.new }
{
    match units.finish(ready) {
        Ok(()) => flush(ready, sink),
        Err(why) => Err(halt(ready, 0, why, sink)),
    }
}

/// Does the same as [`drive`] if the first `first` bytes of the input were already read into the start of `piece`. `first` is 0 only if the input has
/// ended.
pub fn drive_behind<C: Cut, J: Judge, S: Source, K: Sink>(
    alloc: Global,
    units: &mut Units<C, J>,
    piece: &mut [u8; MOST_PIECE],
    first: usize,
    source: &mut S,
    sink: &mut K,
) -> Result<(), Interruption>
    requires within { first ≤ MOST_PIECE }
    requires end { first ≡ 0 → IsAtEnd (S.left source.old) }
    ensures drove { (left : Option (List ℕ)) (point : Point J.State) → Consumes left (S.left source.old) (take first piece.old)
        → StandsAt J.stands units.old point
        → DroveBehind (take first piece.old) (JudgeStands J.stands) (byte (rule_of C.scan C.scan_end J.step J.outside J.closing))
        (ends (rule_of C.scan C.scan_end J.step J.outside J.closing)) point units.new
        left (S.left source.new) (K.written sink.old) (K.written sink.new) (K.faults sink.old) (K.faults sink.new) result }
    ensures starves { (left : Option (List ℕ)) (point : Point J.State) → Consumes left (S.left source.old) (take first piece.old)
        → StandsAt J.stands units.old point
        → Starves IsAtUnit (byte (rule_of C.scan C.scan_end J.step J.outside J.closing)) point units.new left (S.left source.new) (K.written sink.old)
        (K.written sink.new) result }
    ensures cause { CauseOf (S.faults source.old) (S.faults source.new) (K.faults sink.old) (K.faults sink.new) result }
    ensures never_falls { K.faults sink.old ≤ K.faults sink.new }
{
    let mut ready = Blob::new(alloc);
    take_all(units, &mut ready, piece, first, source, sink)?;
    finish(units, &mut ready, sink)
}

/// Reads the whole input of a command, and writes the texts that are due.
pub fn drive<C: Cut, J: Judge, S: Source, K: Sink>(
    alloc: Global,
    units: &mut Units<C, J>,
    source: &mut S,
    sink: &mut K,
) -> Result<(), Interruption>
    ensures drove { (point : Point J.State) → StandsAt J.stands units.old point
        → Drove (JudgeStands J.stands) (byte (rule_of C.scan C.scan_end J.step J.outside J.closing))
        (ends (rule_of C.scan C.scan_end J.step J.outside J.closing)) point units.new
        (S.left source.old) (S.left source.new) (K.written sink.old) (K.written sink.new) (K.faults sink.old) (K.faults sink.new) result }
    ensures starves { (point : Point J.State) → StandsAt J.stands units.old point
        → Starves IsAtUnit (byte (rule_of C.scan C.scan_end J.step J.outside J.closing)) point units.new (S.left source.old) (S.left source.new)
        (K.written sink.old) (K.written sink.new) result }
    ensures cause { CauseOf (S.faults source.old) (S.faults source.new) (K.faults sink.old) (K.faults sink.new) result }
    ensures never_falls { K.faults sink.old ≤ K.faults sink.new }
{
    let mut piece = [0u8; MOST_PIECE];
    let Ok(first) = source.read(&mut piece) else {
        return Err(Interruption::SourceFault);
    };
    drive_behind(alloc, units, &mut piece, first, source, sink)
}
