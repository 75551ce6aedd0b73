// Makes a script's calls and returns their journal.
ghost use Rattle.std.specs.Prelude.{◌≤◌, IfOk};
ghost use Rattle.sfu_together.specs.History.{IsJournal};
ghost use Rattle.port_config.specs.actors.Counts.{count_of};

use crate::acting::act;
use crate::cast::{gather, play};
use crate::gate::{Gate, OpenGate};
use crate::played_room::PlayedRoom;
use port_config::{in_order, put_all};
use room_core::{KeepNone, Room};
use script_texts::{Actors, Journal};
use sfu_base::NoMemory;
use std::alloc::Global;
use std::sync::Wait;
use std::thread::Threads;
use thiserror::Error;
use turn_lock::Turns;

/// Why a script of actors has no journal.
#[derive(Clone, Copy, Debug, PartialEq, Eq, Error)]
pub enum TogetherFault {
    #[error("out of memory")]
    NoMemory,
}

// Makes a script's calls on a room that records nothing. First seat 0 makes the opening part's calls.
// Then each actor makes its calls by its own seat. At last seat 0 makes the closing part's calls.
fn make<W: Threads + Wait + Sync, G: Gate>(
    rt: &W,
    alloc: Global,
    script: &Actors,
    gate: &G,
) -> Result<Journal, NoMemory>
    requires { count_of script.now ≤ 100000 }
    ensures { IfOk result (λ journal. IsJournal script.now journal) }
{
    let room = PlayedRoom {
        room: Room::new(alloc, KeepNone::new()),
    };
    let opened = Turns::new(alloc, room, 0)?;
    let (turns, mut seat) = opened;
    let mut kept = act(
        rt,
        alloc,
        &turns,
        &OpenGate,
        &mut seat,
        0,
        script.opening.calls(),
    )?;
    let dones = play(rt, alloc, &turns, gate, script, &mut seat)?;
    gather(&turns, &mut seat, dones, &mut kept)?;
    let last = act(
        rt,
        alloc,
        &turns,
        &OpenGate,
        &mut seat,
        0,
        script.closing.calls(),
    )?;
    put_all(&mut kept, last)?;
    drop(turns.close(seat));
    in_order(alloc, kept)
}

/// Makes the calls of a script and returns the journal. The script may have at most 100,000 calls. The actors run at the same time, each on its own
/// thread. The gate is called before and after each call of an actor. On `NoMemory` the room and the entries are dropped.
pub fn run_together<W: Threads + Wait + Sync, G: Gate>(
    rt: &W,
    alloc: Global,
    script: &Actors,
    gate: &G,
) -> Result<Journal, TogetherFault>
    requires { count_of script.now ≤ 100000 }
    ensures { IfOk result (λ journal. IsJournal script.now journal) }
{
    match make(rt, alloc, script, gate) {
        Ok(journal) => Ok(journal),
        Err(NoMemory) => Err(TogetherFault::NoMemory),
    }
}
