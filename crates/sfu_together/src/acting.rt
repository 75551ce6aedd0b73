// The calls of one seat.
ghost use Rattle.std.specs.Prelude.{◌≡◌, ◌≤◌, length, IfOk};
ghost use Rattle.turn_lock.specs.Known.{Fits};
ghost use Rattle.sfu_together.specs.Acting.{Acts};

use crate::gate::Gate;
use crate::played_room::PlayedRoom;
use port_config::{Placed, journal_entry, put_last};
use sfu_base::{Call, NoMemory, Scratch};
use std::alloc::Global;
use std::sync::Wait;
use turn_lock::{Seat, Turns};

/// Makes a seat's calls in order. There may be at most 100,000 calls. For each turn, returns its index in the history and the journal entry of its
/// call. The gate is called before and after each turn. Once the lock has no ticket left, no further call is made.
pub fn act<W: Wait + Sync, G: Gate>(
    rt: &W,
    alloc: Global,
    turns: &Turns<PlayedRoom>,
    gate: &G,
    seat: &mut Seat<PlayedRoom>,
    actor: u8,
    calls: &[Call],
) -> Result<Vec<Placed>, NoMemory>
    requires lock { seat.old.lock ≡ turns.now }
    requires fits { Fits seat.old }
    requires number { seat.old.number ≡ actor }
    requires first { seat.old.first ≡ 0 }
    requires few { length calls.now ≤ 100000 }
    ensures acts { IfOk result (λ kept. Acts seat.old seat.new calls.now kept.items) }
    ensures fits { Fits seat.new }
    ensures lock { seat.new.lock ≡ seat.old.lock }
{
    let mut scratch = Scratch::new();
    let mut kept = Vec::new(alloc);
    let mut line = 0;
    for call in calls {
        gate.before(actor, line);
        let turn = turns.turn(rt, seat, call, &mut scratch);
        gate.after(actor, line);
        line += 1;
        let Ok(turn) = turn else {
            return Ok(kept);
        };
        let entry = journal_entry(alloc, actor, call, &turn.reply, &scratch)?;
        let place = turn.place;
        put_last(&mut kept, Placed { place, entry })?;
    }
    Ok(kept)
}
