// The sessions of `serve`, and what is written when they have ended.
ghost use Rattle.std.specs.Prelude.{◌≡◌, ◌⊎◌, ◌+◌, ◌≤◌, ◌<◌, ◌^◌, ℕ, List, [], IfOk, length, map, vec_len, true, false};
ghost use Rattle.std.specs.Io.KnownBytes.{Appends};
ghost use Rattle.std.specs.List.{All};
ghost use Rattle.sfu_base.specs.Faults.{Rose};
ghost use Rattle.sfu_base.specs.declared.call.Call.{Call};
ghost use Rattle.turn_lock.specs.Known.{Fits};
ghost use Rattle.sfu_driver.specs.Drive.{WritesPart};
ghost use Rattle.sfu_serve.specs.Runs.{CanBe};
ghost use Rattle.sfu_program.specs.ServeEnds.{AreUnworn, all_made, ends_of, ends_text};
ghost use Rattle.sfu_program.specs.ServeOpening.{HasMade};
ghost use Rattle.sfu_program.specs.ServePorts.{NoFault, SomeFault, after_backs, befores};
ghost use Rattle.sfu_program.specs.Serve.{HaveServed, afters};
ghost use Rattle.sfu_program.specs.ServeEnding.{EndsWith};
ghost use Rattle.sfu_driver.specs.Statuses.{number_of};

use super::ends::{add_ends, made_all_turns};
use super::ports::release_ended;
use room_core::KeepNone;
use sfu_base::{Blob, Clock, Link, NoMemory, Ports, Sink};
use sfu_driver::{Status, write_all};
use sfu_serve::{Ended, Job, SharedRoom, run_sessions};
use std::alloc::Global;
use std::sync::Wait;
use std::thread::Threads;
use turn_lock::{Seat, Turns};

/// Runs the sessions of all jobs at the same time. Closes the lock when all sessions have ended.
pub fn run_all<L: Link + Send + Drop, C: Clock + Sync, W: Threads + Wait + Sync>(
    rt: &W,
    alloc: Global,
    turns: Turns<SharedRoom<KeepNone>>,
    mut seat: Seat<SharedRoom<KeepNone>>,
    jobs: Vec<Job<L>>,
    clock: &C,
    limit: u64,
) -> Result<Vec<Ended<L>>, NoMemory>
    requires lock { seat.lock ≡ turns }
    requires fits { Fits seat }
    requires first { (seat.number ≡ 0) × (seat.count ≡ 1) }
    requires few { vec_len jobs ≤ 64 }
    requires roles { All (λ j. CanBe j.role) jobs.items }
    requires limited { limit ≤ 1000000000000 }
    ensures served { IfOk result (λ ended. (calls : List Call) → HasMade turns calls seat → length calls < 2 ^ 32
        → HaveServed limit calls (befores L.traffic L.faults jobs.items) (afters L.traffic L.faults ended.items)) }
    ensures names { IfOk result (λ ended. map (λ e. L.name e.link) ended.items ≡ map (λ j. L.name j.link) jobs.items) }
{
    let ended = run_sessions(rt, alloc, &turns, &mut seat, jobs, clock, limit)?;
    let _room = turns.close(seat);
    Ok(ended)
}

/// Releases the ports of sessions that ended, writes the line of each session, and returns the status: 0 if each session made all its turns, 7 if a
/// session's link failed, 4 if the sink failed, 6 if memory ran out for the lines.
pub fn end_all<P: Ports, K: Sink>(
    alloc: Global,
    ended: Vec<Ended<P::Port>>,
    ports: &mut P,
    sink: &mut K,
) -> Status
    requires capacity { P.back_count ports.old + vec_len ended ≤ P.bound ports.old }
    requires few { vec_len ended ≤ 64 }
    requires unworn { AreUnworn (ends_of ended.items) }
    ensures bound { P.bound ports.new ≡ P.bound ports.old }
    ensures back_count { P.back_count ports.new ≡ P.back_count ports.old + vec_len ended }
    ensures returned { P.returned ports.new ≡ after_backs (map (λ e. e.link) ended.items) (P.returned ports.old) }
    ensures never_falls { P.faults ports.old ≤ P.faults ports.new }
    ensures calm { NoFault P.Port.faults (map (λ e. e.link) ended.items) → P.faults ports.new ≡ P.faults ports.old }
    ensures rose { SomeFault P.Port.faults (map (λ e. e.link) ended.items) → Rose (P.faults ports.old) (P.faults ports.new) }
    ensures writes { K.faults sink.old ≤ K.faults sink.new }
    ensures ends { EndsWith (ends_of ended.items) (K.written sink.old) (K.written sink.new) (K.faults sink.old) (K.faults sink.new) (number_of result) }
{
    let mut ready = Blob::new(alloc);
    let lines = add_ends(ended.as_slice(), &mut ready);
    let all = made_all_turns(ended.as_slice());
    release_ended(ended, ports);
    if lines.is_err() {
        return Status::NoMemory;
    }
    if write_all(sink, ready.bytes()).is_err() {
        return Status::SinkFault;
    }
    if all { Status::Done } else { Status::PortFault }
}
