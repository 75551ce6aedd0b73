// Runs jobs at the same time. Each job has its own seat.
ghost use Rattle.std.specs.Prelude.{◌≡◌, ◌++◌, ◌∷◌, [], ◌≤◌, ◌<◌, ◌+◌, IfOk, OnOk, length, map};
ghost use Rattle.std.specs.List.{All};
ghost use mathlib.Core.List.{IsPrefix};
ghost use Rattle.turn_lock.specs.Known.{Fits};
ghost use Rattle.sfu_serve.specs.Parts.{Keeps};
ghost use Rattle.sfu_serve.specs.Runs.{CanBe, deed_of, job_after, job_before};
ghost use Rattle.sfu_serve.specs.Playing.{ArePlayed, HaveJoined, counting, played_job, seated_from, seated_job};
ghost use Rattle.sfu_serve.specs.Replies.{MayStarve};

use crate::driver::Stage;
use crate::ends::SessionEnd;
use crate::run::{Ended, Job, Role};
use crate::sessions::{control_session, publisher_session, rtx_session, subscriber_session};
use crate::shared_room::SharedRoom;
use room_core::Recorder;
use sfu_base::{Clock, Link, NoMemory, Scratch};
use std::alloc::Global;
use std::sync::Wait;
use std::thread;
use std::thread::Threads;
use turn_lock::{Seat, Turns};

/// A job and its seat.
#[derive(Drop)]
pub struct Seated<R: Recorder, L> {
    pub seat: Seat<SharedRoom<R>>,
    pub job: Job<L>,
}

/// The result of a job: its seat, how its session ended, and its link.
#[derive(Drop)]
pub struct Played<R: Recorder, L> {
    pub seat: Seat<SharedRoom<R>>,
    pub end: SessionEnd,
    pub link: L,
}

/// Appends an item to a list.
fn put_last<T: Drop>(list: &mut Vec<T>, item: T) -> Result<(), NoMemory>
    ensures { OnOk result (list.new.items ≡ list.old.items ++ item ∷ []) }
{
    match list.push(item) {
        Ok(()) => Ok(()),
        Err(_) => Err(NoMemory),
    }
}

/// Splits off one seat for each job, in the order of the jobs. The first job gets seat 1.
pub fn cast<R: Recorder, L: Link + Drop>(
    alloc: Global,
    turns: &Turns<SharedRoom<R>>,
    seat: &mut Seat<SharedRoom<R>>,
    jobs: Vec<Job<L>>,
) -> Result<Vec<Seated<R, L>>, NoMemory>
    requires lock { seat.old.lock ≡ turns.now }
    requires fits { Fits seat.old }
    requires number { seat.old.number ≡ 0 }
    requires alone { seat.old.count ≡ 1 }
    requires few { length jobs.items ≤ 64 }
    ensures kept { (seat.new.lock ≡ seat.old.lock) × (seat.new.number ≡ seat.old.number) × (seat.new.seen ≡ seat.old.seen) × (seat.new.found ≡ seat.old.found) }
    ensures split { IfOk result (λ seated. seat.new ≡ counting seat.old (1 + length jobs.items)) }
    ensures fits { IfOk result (λ seated. Fits seat.new) }
    ensures seated { IfOk result (λ seated. map (λ s. seated_job s.seat (job_before s.job.role (L.traffic s.job.link) (L.faults s.job.link))) seated.items
        ≡ seated_from seat.old 1 (map (λ j. job_before j.role (L.traffic j.link) (L.faults j.link)) jobs.items)) }
    ensures names { IfOk result (λ seated. map (λ s. L.name s.job.link) seated.items ≡ map (λ j. L.name j.link) jobs.items) }
{
    let mut seated = Vec::new(alloc);
    for job in jobs {
        let own = turns.split(seat);
        put_last(&mut seated, Seated { seat: own, job })?;
    }
    Ok(seated)
}

/// Runs the session that `role` describes.
fn session<R: Recorder, L: Link, C: Clock, W: Wait + Sync>(
    stage: &Stage<'_, R, C, W>,
    seat: &mut Seat<SharedRoom<R>>,
    role: Role,
    link: &mut L,
    scratch: &mut Scratch,
) -> SessionEnd
    requires lock { seat.old.lock ≡ stage.now.turns.now }
    requires role { CanBe role }
    ensures keeps { Keeps (MayStarve R.may_refuse) (deed_of role stage.now.limit) stage.now.limit
        seat.old seat.new (L.traffic link.old) (L.traffic link.new) (L.faults link.old) (L.faults link.new) result }
    ensures name { L.name link.new ≡ L.name link.old }
{
    let Stage {
        rt,
        turns,
        clock,
        limit,
    } = *stage;
    match role {
        Role::Publisher { track, ssrc } => {
            publisher_session(rt, turns, seat, track, ssrc, link, clock, limit, scratch)
        }
        Role::Subscriber { subscriber, ssrc } => subscriber_session(
            rt, turns, seat, subscriber, ssrc, link, clock, limit, scratch,
        ),
        Role::Control => control_session(rt, turns, seat, link, clock, limit, scratch),
        Role::Rtx {
            subscriber,
            ssrc,
            rtx,
        } => rtx_session(
            rt, turns, seat, subscriber, ssrc, &rtx, link, clock, limit, scratch,
        ),
    }
}

/// Runs the session of a job, with a new scratch.
fn perform<R: Recorder, L: Link, C: Clock, W: Wait + Sync>(
    stage: &Stage<'_, R, C, W>,
    seated: Seated<R, L>,
) -> Played<R, L>
    requires lock { seated.seat.lock ≡ stage.now.turns.now }
    requires role { CanBe seated.job.role }
    ensures keeps { Keeps (MayStarve R.may_refuse) (deed_of seated.job.role stage.now.limit) stage.now.limit
        seated.seat result.seat (L.traffic seated.job.link) (L.traffic result.link) (L.faults seated.job.link) (L.faults result.link) result.end }
    ensures name { L.name result.link ≡ L.name seated.job.link }
{
    let mut scratch = Scratch::new();
    let Seated { mut seat, job } = seated;
    let Job { role, mut link } = job;
    let end = session(stage, &mut seat, role, &mut link, &mut scratch);
    Played { seat, end, link }
}

/// Runs the jobs' sessions at the same time, each on its own thread.
pub fn play<R: Recorder + Send, L: Link + Send + Drop, C: Clock + Sync, W: Threads + Wait + Sync>(
    rt: &W,
    turns: &Turns<SharedRoom<R>>,
    clock: &C,
    limit: u64,
    seated: Vec<Seated<R, L>>,
) -> Result<Vec<Played<R, L>>, NoMemory>
    requires ready { All (λ s. (s.seat.lock ≡ turns.now) × CanBe s.job.role) seated.items }
    ensures played { IfOk result (λ played. ArePlayed (MayStarve R.may_refuse) limit
        (map (λ s. seated_job s.seat (job_before s.job.role (L.traffic s.job.link) (L.faults s.job.link))) seated.items)
        (map (λ p. played_job p.seat (job_after p.end (L.traffic p.link) (L.faults p.link))) played.items)) }
    ensures names { IfOk result (λ played. map (λ p. L.name p.link) played.items ≡ map (λ s. L.name s.job.link) seated.items) }
{
    let Ok(played) = thread::map_vec(
        rt,
        seated,
        &move |one: Seated<R, L>| -> Played<R, L>
            requires { (one.seat.lock ≡ turns.now) × CanBe one.job.role }
            ensures keeps { Keeps (MayStarve R.may_refuse) (deed_of one.job.role limit) limit
                one.seat result.seat (L.traffic one.job.link) (L.traffic result.link) (L.faults one.job.link) (L.faults result.link) result.end }
            ensures name { L.name result.link ≡ L.name one.job.link }
        { perform(&Stage::new(rt, turns, clock, limit), one) },
    ) else {
        return Err(NoMemory);
    };
    Ok(played)
}

/// Joins the seats of the jobs into the first seat, in the order of the jobs. Returns each job's link and how its session ended, in the same order.
pub fn gather<R: Recorder, L: Link + Drop>(
    alloc: Global,
    turns: &Turns<SharedRoom<R>>,
    seat: &mut Seat<SharedRoom<R>>,
    played: Vec<Played<R, L>>,
) -> Result<Vec<Ended<L>>, NoMemory>
    requires lock { seat.old.lock ≡ turns.now }
    requires fits { Fits seat.old }
    requires first { seat.old.number ≡ 0 }
    requires locks { All (λ p. p.seat.lock ≡ turns.now) played.items }
    requires others { All (λ p. 0 < p.seat.number) played.items }
    ensures kept { (seat.new.lock ≡ seat.old.lock) × (seat.new.number ≡ seat.old.number) }
    ensures grows { IsPrefix seat.old.seen seat.new.seen × (seat.old.found ≤ seat.new.found) }
    ensures fits { IfOk result (λ ended. Fits seat.new) }
    ensures joined { IfOk result (λ ended. HaveJoined seat.old (map (λ p. p.seat) played.items) seat.new) }
    ensures ended { IfOk result (λ ended. map (λ e. job_after e.end (L.traffic e.link) (L.faults e.link)) ended.items
        ≡ map (λ p. job_after p.end (L.traffic p.link) (L.faults p.link)) played.items) }
    ensures names { IfOk result (λ ended. map (λ e. L.name e.link) ended.items ≡ map (λ p. L.name p.link) played.items) }
{
    let mut ended = Vec::new(alloc);
    for one in played {
        let Played {
            seat: from,
            end,
            link,
        } = one;
        turns.join(seat, from);
        put_last(&mut ended, Ended { end, link })?;
    }
    Ok(ended)
}
