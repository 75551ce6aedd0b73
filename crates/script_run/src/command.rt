// The command `run`.
ghost use Rattle.std.specs.Prelude.{◌≡◌, ◌≤◌, ℕ, List, Option, take};
ghost use Rattle.std.specs.Io.KnownBytes.{Consumes, IsAtEnd};
ghost use Rattle.sfu_driver.specs.Statuses.{StatusesBehind, number_of};
ghost use Rattle.script_run.specs.Promise.{AreServed};
ghost use Rattle.script_run.specs.Run.{IsRunStatus, Runs, due_in, part_in};
ghost use Rattle.script_records.specs.Script.{form_of};
ghost use Rattle.sfu_driver.specs.Exchange.{exchange_of};

use crate::server::{CallServer, LineServer, RecordServer};
use script_records::{Form, Records};
use sfu_base::{Sink, Source};
use sfu_driver::{Lines, MOST_PIECE, Status, Units, answer_behind};
use std::alloc::Global;

// Returns the form of a script that begins with these bytes.
fn form_by(first: &[u8]) -> Form
    ensures { result ≡ form_of first.now }
{
    match first {
        [0, ..] => Form::Records,
        _ => Form::Lines,
    }
}

// Runs a script of lines, whose first `first` bytes were read and are at the start of `piece`.
#[inline(never)]
fn run_lines<S: Source, K: Sink>(
    alloc: Global,
    piece: &mut [u8; MOST_PIECE],
    first: usize,
    source: &mut S,
    sink: &mut K,
) -> Status
    requires within { first ≤ MOST_PIECE }
    requires end { first ≡ 0 → IsAtEnd (S.left source.old) }
    ensures { (left : Option (List ℕ)) (reads : ℕ) → Consumes left (S.left source.old) (take first piece.old) → S.faults source.old ≡ reads
        → StatusesBehind (take first piece.old) (due_in Form.Lines) (part_in Form.Lines) left (S.left source.new) (K.written sink.old)
        (K.written sink.new) reads (S.faults source.new)
        (K.faults sink.old) (K.faults sink.new) (number_of result) }
{
    let judge = LineServer {
        server: CallServer::new(alloc),
    };
    let mut units = Units::new(Lines, judge, 1);
    answer_behind(alloc, &mut units, piece, first, source, sink)
}

// Runs a script of records, whose first `first` bytes were read and are at the start of `piece`.
#[inline(never)]
fn run_records<S: Source, K: Sink>(
    alloc: Global,
    piece: &mut [u8; MOST_PIECE],
    first: usize,
    source: &mut S,
    sink: &mut K,
) -> Status
    requires within { first ≤ MOST_PIECE }
    requires end { first ≡ 0 → IsAtEnd (S.left source.old) }
    ensures { (left : Option (List ℕ)) (reads : ℕ) → Consumes left (S.left source.old) (take first piece.old) → S.faults source.old ≡ reads
        → StatusesBehind (take first piece.old) (due_in Form.Records) (part_in Form.Records) left (S.left source.new) (K.written sink.old)
        (K.written sink.new) reads (S.faults source.new)
        (K.faults sink.old) (K.faults sink.new) (number_of result) }
{
    let judge = RecordServer {
        server: CallServer::new(alloc),
    };
    let mut units = Units::new(Records, judge, 0);
    answer_behind(alloc, &mut units, piece, first, source, sink)
}

/// Runs a script: serves the calls in the source, and writes a line for each reply. If the source's first byte is 0, the script consists of records,
/// otherwise of lines. Returns the status.
pub fn run<S: Source, K: Sink>(alloc: Global, source: &mut S, sink: &mut K) -> Status
    ensures runs { Runs (exchange_of S.left S.faults K.written K.faults source.old source.new sink.old sink.new) (number_of result) }
    ensures headline { AreServed }
    ensures only { IsRunStatus (number_of result) }
{
    let mut piece = [0u8; MOST_PIECE];
    let Ok(first) = source.read(&mut piece) else {
        return Status::SourceFault;
    };
    match form_by(&piece[..first]) {
        Form::Lines => run_lines(alloc, &mut piece, first, source, sink),
        Form::Records => run_records(alloc, &mut piece, first, source, sink),
    }
}
