// The actors' seats: split off, played on threads, and joined again.
ghost use Rattle.std.specs.Prelude.{◌≡◌, ◌++◌, ◌≤◌, ◌<◌, ◌+◌, IfOk, length, map, Ok, OnOk};
ghost use Rattle.std.specs.List.{All};
ghost use Rattle.turn_lock.specs.Known.{Fits};
ghost use Rattle.sfu_together.specs.Acting.{AreDone, AreJobs, HasActed, HasJoined, IsReady, counting, kept_by};
ghost use Rattle.port_config.specs.actors.Counts.{count_of};

use crate::acting::act;
use crate::gate::Gate;
use crate::played_room::PlayedRoom;
use port_config::{Placed, put_all, put_last};
use script_texts::Actors;
use sfu_base::NoMemory;
use std::alloc::Global;
use std::sync::Wait;
use std::thread;
use std::thread::Threads;
use turn_lock::{Seat, Turns};

/// The number of actors of a script.
const ACTORS: u8 = 8;

/// An actor and its seat. `actor` is the actor's number, 1 to 8.
#[derive(Drop)]
pub struct Job {
    pub seat: Seat<PlayedRoom>,
    pub actor: u8,
}

/// The seat of an actor that has finished, and the entries of the actor's turns.
#[derive(Drop)]
pub struct Done {
    pub seat: Seat<PlayedRoom>,
    pub kept: Vec<Placed>,
}

/// Splits off a seat of the lock for each actor, in the order of the actors.
pub fn cast(
    alloc: Global,
    turns: &Turns<PlayedRoom>,
    seat: &mut Seat<PlayedRoom>,
) -> Result<Vec<Job>, NoMemory>
    requires lock { seat.old.lock ≡ turns.now }
    requires number { seat.old.number ≡ 0 }
    requires first { seat.old.first ≡ 0 }
    requires alone { seat.old.count ≡ 1 }
    requires fits { Fits seat.old }
    ensures split { IfOk result (λ jobs. seat.new ≡ counting seat.old 9) }
    ensures fits { IfOk result (λ jobs. Fits seat.new) }
    ensures jobs { IfOk result (λ jobs. AreJobs seat.old jobs.items) }
    ensures eight { IfOk result (λ jobs. length jobs.items ≡ 8) }
    ensures ready { IfOk result (λ jobs. All (λ job. IsReady turns.now job) jobs.items) }
{
    let mut jobs = Vec::new(alloc);
    for actor in 1..ACTORS + 1 {
        let own = turns.split(seat);
        put_last(&mut jobs, Job { seat: own, actor })?;
    }
    Ok(jobs)
}

/// Makes the calls of the job's actor with the job's seat.
fn perform<W: Wait + Sync, G: Gate>(
    rt: &W,
    alloc: Global,
    turns: &Turns<PlayedRoom>,
    gate: &G,
    script: &Actors,
    job: Job,
) -> Result<Done, NoMemory>
    requires ready { IsReady turns.now job }
    requires few { count_of script.now ≤ 100000 }
    ensures { IfOk result (λ done. HasActed script.now.actors job done) }
{
    let Job { mut seat, actor } = job;
    let calls = script.actors[usize::from(actor) - 1].calls();
    let kept = act(rt, alloc, turns, gate, &mut seat, actor, calls)?;
    Ok(Done { seat, kept })
}

/// Returns the results of all actors, in order. Returns `NoMemory` if an actor ran out of memory, or if there is no memory for the list of results.
fn all_done(alloc: Global, ended: Vec<Result<Done, NoMemory>>) -> Result<Vec<Done>, NoMemory>
    ensures { IfOk result (λ dones. map Ok dones.items ≡ ended.items) }
{
    let mut dones = Vec::new(alloc);
    for end in ended {
        let done = end?;
        put_last(&mut dones, done)?;
    }
    Ok(dones)
}

/// Splits off a seat for each actor, and runs the actors at the same time, each on its own thread.
pub fn play<W: Threads + Wait + Sync, G: Gate>(
    rt: &W,
    alloc: Global,
    turns: &Turns<PlayedRoom>,
    gate: &G,
    script: &Actors,
    seat: &mut Seat<PlayedRoom>,
) -> Result<Vec<Done>, NoMemory>
    requires lock { seat.old.lock ≡ turns.now }
    requires fits { Fits seat.old }
    requires number { seat.old.number ≡ 0 }
    requires first { seat.old.first ≡ 0 }
    requires alone { seat.old.count ≡ 1 }
    requires few { count_of script.now ≤ 100000 }
    ensures split { IfOk result (λ dones. seat.new ≡ counting seat.old 9) }
    ensures fits { IfOk result (λ dones. Fits seat.new) }
    ensures done { IfOk result (λ dones. AreDone seat.old script.now.actors dones.items) }
    ensures eight { IfOk result (λ dones. length dones.items ≡ 8) }
{
    let jobs = cast(alloc, turns, seat)?;
    let Ok(ended) = thread::map_vec(
        rt,
        jobs,
        &move |job: Job| -> Result<Done, NoMemory>
            requires ready { IsReady turns.now job }
            requires few { count_of script.now ≤ 100000 }
            ensures { IfOk result (λ done. HasActed script.entry.now.actors job done) }
        { perform(rt, alloc, turns, gate, script, job) },
    ) else {
        return Err(NoMemory);
    };
    all_done(alloc, ended)
}

/// Joins the actors' seats into `seat`, in order, and appends the entries of their turns to `kept`.
pub fn gather(
    turns: &Turns<PlayedRoom>,
    seat: &mut Seat<PlayedRoom>,
    dones: Vec<Done>,
    kept: &mut Vec<Placed>,
) -> Result<(), NoMemory>
    requires lock { seat.old.lock ≡ turns.now }
    requires first { seat.old.number ≡ 0 }
    requires fits { Fits seat.old }
    requires locks { All (λ done. done.seat.lock ≡ turns.now) dones.items }
    requires others { All (λ done. 0 < done.seat.number) dones.items }
    ensures fits { OnOk result (Fits seat.new) }
    ensures joined { OnOk result (HasJoined seat.old dones.items seat.new) }
    ensures kept { OnOk result (kept.new.items ≡ kept.old.items ++ kept_by dones.items) }
{
    for done in dones {
        let Done {
            seat: from,
            kept: more,
        } = done;
        turns.join(seat, from);
        put_all(kept, more)?;
    }
    Ok(())
}
