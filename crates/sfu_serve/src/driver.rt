// The loop that runs a session on the room. The loop uses the session's link and the clock.
ghost use Rattle.std.specs.Prelude.{◌≡◌, ℕ, ◌≤◌, [], ◌∷◌, length, IfOk, IfErr};
ghost use Rattle.sfu_base.specs.Faults.{HasCause};
ghost use Rattle.sfu_base.specs.Links.{datagram, with_more};
ghost use Rattle.sfu_base.specs.declared.call.Call.{Call as CallData};
ghost use Rattle.turn_lock.specs.Known.{Known, Fits};
ghost use Rattle.session_steps.specs.Sessions.{Doing};
ghost use Rattle.session_steps.specs.Stepping.{GoesOn, Waits};
ghost use Rattle.sfu_serve.specs.Parts.{Done, FailedOnce, Keeps, NoneMayStarve};
ghost use Rattle.sfu_serve.specs.Replies.{MayStarve};

use crate::ends::SessionEnd;
use crate::shared_room::SharedRoom;
use room_core::Recorder;
use session_steps::{Output, Session};
use sfu_base::{Clock, Failed, Link, PacketBuf, Scratch};
use std::sync::Wait;
use turn_lock::{Seat, Turns};

/// The state that all sessions of a run share.
#[derive(Drop)]
pub struct Stage<'a, R: Recorder, C, W> {
    pub rt: &'a W,
    /// The lock around the room.
    pub turns: &'a Turns<SharedRoom<R>>,
    pub clock: &'a C,
    /// The number of turns that each session makes, unless the session ends early.
    pub limit: u64,
}

impl<'a, R: Recorder, C, W> Stage<'a, R, C, W> {
    /// Returns a stage with this lock and clock, for sessions of `limit` turns.
    pub fn new(
        rt: &'a W,
        turns: &'a Turns<SharedRoom<R>>,
        clock: &'a C,
        limit: u64,
    ) -> Stage<'a, R, C, W>
        ensures { (result.turns.now ≡ turns.now) × (result.limit ≡ limit) }
    {
        Stage {
            rt,
            turns,
            clock,
            limit,
        }
    }
}

/// Receives a datagram, and then reads the clock. Returns whether a datagram came, and the moment read from the clock. If the receive fails, returns
/// the failure without reading the clock. Each turn of a session calls `listen` exactly once, even if the session doesn't use the results (own rule).
fn listen<L: Link, C: Clock>(
    link: &mut L,
    clock: &C,
    into: &mut PacketBuf,
) -> Result<(bool, u64), Failed>
    ensures heard { IfOk result (λ heard. L.traffic link.new ≡ with_more (datagram heard.0 into.new ∷ []) [] (L.traffic link.old)) }
    ensures unheard { IfErr result (λ failed. L.traffic link.new ≡ L.traffic link.old) }
    ensures name { L.name link.new ≡ L.name link.old }
    ensures cause { HasCause (L.faults link.old) (L.faults link.new) result }
    ensures bounded { length into.new ≤ 2048 }
{
    let came = link.receive(into);
    let _bytes = into.bytes();
    Ok((came?, clock.now()))
}

/// Sends the datagram in `packet`, if `output` says that the session's step returned a datagram.
fn send_output<L: Link>(link: &mut L, output: Output, packet: &PacketBuf) -> Result<(), Failed>
    ensures sent { IfOk result (λ sent. (whole rest : Doing) (seat : Known CallData) → Fits seat → GoesOn whole rest packet.now output
        → Done NoneMayStarve whole rest seat seat (L.traffic link.old) (L.traffic link.new) (L.faults link.old) (L.faults link.new) 0) }
    ensures unsent { IfErr result (λ failed. (output ≡ Output.Packet) × (L.traffic link.new ≡ L.traffic link.old) × FailedOnce (L.faults link.old) (L.faults link.new)) }
    ensures name { L.name link.new ≡ L.name link.old }
{
    match output {
        Output::Nothing => Ok(()),
        Output::Packet => link.send(packet),
    }
}

/// Runs a session for `stage.limit` turns. When `run_session` is called, the session must be waiting for a datagram. Each turn receives a datagram or
/// none, reads the clock, and then makes the session's calls and sends its datagrams. The session ends early if a call on the link fails or the lock
/// has no ticket left (own rule).
pub fn run_session<R: Recorder, S: Session, L: Link, C: Clock, W: Wait + Sync>(
    stage: &Stage<'_, R, C, W>,
    seat: &mut Seat<SharedRoom<R>>,
    session: &mut S,
    link: &mut L,
    scratch: &mut Scratch,
) -> SessionEnd
    requires lock { seat.old.lock ≡ stage.now.turns.now }
    requires waits { (turns : ℕ) → Waits (S.left session.old turns) turns }
    ensures keeps { Keeps (MayStarve R.may_refuse) (S.left session.old stage.now.limit) stage.now.limit
        seat.old seat.new (L.traffic link.old) (L.traffic link.new) (L.faults link.old) (L.faults link.new) result }
    ensures name { L.name link.new ≡ L.name link.old }
{
    seat.lemma_fits();
    for turn in 0..stage.limit {
        let Ok((came, moment)) = listen(link, stage.clock, &mut scratch.packet) else {
            return SessionEnd::LinkFault { turn };
        };
        let output = session.received(came, moment, scratch);
        let Ok(()) = send_output(link, output, &scratch.packet) else {
            return SessionEnd::LinkFault { turn };
        };
        while let Some(call) = session.call() {
            let Ok(made) = stage.turns.turn(stage.rt, seat, call, scratch) else {
                return SessionEnd::Worn;
            };
            let output = session.replied(made.reply, scratch);
            let Ok(()) = send_output(link, output, &scratch.packet) else {
                return SessionEnd::LinkFault { turn };
            };
        }
    }
    SessionEnd::AllTurns
}
