// The calls that are made before any session starts, and their replies.
ghost use Rattle.std.specs.Prelude.{◌≡◌, ◌^◌, ◌∷◌, ◌++◌, [], List, IfErr, OnOk};
ghost use Rattle.sfu_base.specs.declared.call.Call.{Call};
ghost use Rattle.turn_lock.specs.Known.{Fits};
ghost use Rattle.sfu_program.specs.ServeOpening.{HasMade, IsWornOut, first_text, next_line};
ghost use Rattle.sfu_program.specs.declared.serve.opening.Unmade.TheVariants.{Worn};

use room_core::KeepNone;
use script_texts::{add_reply, wants_memory};
use sfu_base::{Blob, Call, NoMemory, Scratch};
use sfu_serve::SharedRoom;
use std::sync::Wait;
use turn_lock::{Seat, Turns};

/// Why `make_calls` failed.
#[derive(Clone, Copy, Debug)]
pub enum Unmade {
    /// Out of memory.
    Starved,
    /// The lock had no ticket left.
    Worn,
}

// Makes a call by the first seat, and appends the line of its reply to `ready`, the output so far.
fn make_call<W: Wait + Sync>(
    rt: &W,
    turns: &Turns<SharedRoom<KeepNone>>,
    seat: &mut Seat<SharedRoom<KeepNone>>,
    call: &Call,
    scratch: &mut Scratch,
    ready: &mut Blob,
) -> Result<(), Unmade>
    requires lock { seat.old.lock ≡ turns.now }
    requires fits { Fits seat.old }
    ensures made { OnOk result ((calls : List Call) → HasMade turns.now calls seat.old → HasMade turns.now (calls ++ call.now ∷ []) seat.new
        × (ready.new ≡ ready.old ++ next_line calls call.now)) }
    ensures worn { IfErr result (λ why. why ≡ Worn → (calls : List Call) → HasMade turns.now calls seat.old → HasMade turns.now calls seat.new
        × (seat.new.found ≡ 2 ^ 63)) }
    ensures fits { Fits seat.new }
{
    let Ok(turn) = turns.turn(rt, seat, call, scratch) else {
        return Err(Unmade::Worn);
    };
    if wants_memory(&turn.reply) {
        return Err(Unmade::Starved);
    }
    match add_reply(&turn.reply, scratch, ready) {
        Ok(()) => Ok(()),
        Err(NoMemory) => Err(Unmade::Starved),
    }
}

/// Makes these calls in order, all from the first seat. Appends a line for each reply to `ready`, which holds the output so far.
pub fn make_calls<W: Wait + Sync>(
    rt: &W,
    turns: &Turns<SharedRoom<KeepNone>>,
    seat: &mut Seat<SharedRoom<KeepNone>>,
    calls: &[Call],
    ready: &mut Blob,
) -> Result<(), Unmade>
    requires made { HasMade turns.now [] seat.old }
    requires fits { Fits seat.old }
    ensures made { OnOk result (HasMade turns.now calls.now seat.new × (ready.new ≡ ready.old ++ first_text calls.now)) }
    ensures worn { IfErr result (λ why. why ≡ Worn → IsWornOut turns.now calls.now seat.new) }
    ensures fits { Fits seat.new }
{
    let mut scratch = Scratch::new();
    for call in calls {
        make_call(rt, turns, seat, call, &mut scratch, ready)?;
    }
    Ok(())
}
