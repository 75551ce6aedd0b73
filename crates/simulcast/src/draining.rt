// Takes packets from the legs of a bundle.
ghost use Rattle.std.specs.Prelude.{◌≡◌, ◌≤◌, ◌+◌, ◌∷◌, [], IfOk, IsErr, IsTrue, length};
ghost use Rattle.room_core.specs.Serves.{recorder_may_refuse};
ghost use Rattle.simulcast.specs.Pumping.{Pumping};
ghost use Rattle.simulcast.specs.Bundle.{AreAt, Drains, Pumps, PumpsWhole};

use crate::bundle::Bundle;
use crate::pumped::Pumped;
use crate::taken::{is_packet, is_starved};
use dd_descriptor::NewestDescriptor;
use room_core::{Recorder, Room};
use sfu_base::{NoMemory, Scratch};

/// The maximum number of takes from one leg in a pump. It is 1 more than the 512 packets of a full queue. The 513th take always finds the subscriber's
/// queue empty.
const MOST_TAKES: u32 = 513;

// Takes packets from a leg until the leg's queue is empty, or until the bundle has 512 packets queued. Returns the number of packets taken.
fn drain<R: Recorder>(
    room: &mut Room<R>,
    bundle: &mut Bundle,
    leg: u8,
    subscriber: u32,
    newest: &mut NewestDescriptor,
    scratch: &mut Scratch,
) -> Result<u32, NoMemory>
    ensures drains { Drains R.noted room.old room.new bundle.old bundle.new leg subscriber result }
    ensures few { IfOk result (λ count. count ≤ 513) }
    ensures memory { IsErr result → IsTrue (recorder_may_refuse R.may_refuse room.old) }
    ensures recorder { recorder_may_refuse R.may_refuse room.new ≡ recorder_may_refuse R.may_refuse room.old }
    ensures grew { length bundle.old.ring.queued ≤ length bundle.new.ring.queued }
    ensures by { IfOk result (λ count. length bundle.new.ring.queued ≤ length bundle.old.ring.queued + count) }
{
    for count in 0..MOST_TAKES {
        if bundle.is_full() {
            return Ok(count);
        }
        let reply = room.take(0, subscriber, scratch);
        if is_starved(&reply) {
            return Err(NoMemory);
        }
        if !is_packet(&reply) {
            return Ok(count);
        }
        bundle.take_in(leg, &mut scratch.packet, newest);
    }
    Ok(MOST_TAKES)
}

// Drains the leg with this number, if the bundle has such a leg. Returns the number of packets taken.
fn drain_leg<R: Recorder>(
    room: &mut Room<R>,
    bundle: &mut Bundle,
    leg: Option<u8>,
    newest: &mut NewestDescriptor,
    scratch: &mut Scratch,
) -> Result<u32, NoMemory>
    ensures pumps { Pumps R.noted room.old room.new bundle.old bundle.new (leg ∷ []) result }
    ensures few { IfOk result (λ count. count ≤ 513) }
    ensures memory { IsErr result → IsTrue (recorder_may_refuse R.may_refuse room.old) }
    ensures recorder { recorder_may_refuse R.may_refuse room.new ≡ recorder_may_refuse R.may_refuse room.old }
    ensures grew { length bundle.old.ring.queued ≤ length bundle.new.ring.queued }
    ensures by { IfOk result (λ count. length bundle.new.ring.queued ≤ length bundle.old.ring.queued + count) }
{
    let Some(leg) = leg else {
        return Ok(0);
    };
    match bundle.leg(leg) {
        Some(subscriber) => drain(room, bundle, leg, subscriber, newest, scratch),
        None => Ok(0),
    }
}

// Drains the legs with these numbers, in this order. Returns the number of packets taken.
fn drain_legs<R: Recorder>(
    room: &mut Room<R>,
    bundle: &mut Bundle,
    legs: &[Option<u8>; 5],
    newest: &mut NewestDescriptor,
    scratch: &mut Scratch,
) -> Result<u32, NoMemory>
    ensures pumps { Pumps R.noted room.old room.new bundle.old bundle.new legs.now result }
    ensures memory { IsErr result → IsTrue (recorder_may_refuse R.may_refuse room.old) }
    ensures recorder { recorder_may_refuse R.may_refuse room.new ≡ recorder_may_refuse R.may_refuse room.old }
    ensures grew { length bundle.old.ring.queued ≤ length bundle.new.ring.queued }
    ensures by { IfOk result (λ count. length bundle.new.ring.queued ≤ length bundle.old.ring.queued + count) }
{
    let mut taken = 0;
    for leg in legs {
        match drain_leg(room, bundle, *leg, newest, scratch) {
            Ok(count) => taken += count,
            Err(fault) => return Err(fault),
        }
    }
    Ok(taken)
}

/// Takes the packets that are queued for the legs of a bundle. The active leg comes first. If another leg is chosen, the chosen leg comes next. The other
/// legs follow in the order of their numbers. Takes packets from each leg until the leg's queue is empty, or until the bundle's own queue has 512 packets.
pub fn pump<R: Recorder>(
    room: &mut Room<R>,
    bundle: &mut Bundle,
    newest: &mut NewestDescriptor,
    scratch: &mut Scratch,
) -> Result<Pumped, NoMemory>
    ensures pumps { (s : Pumping) → AreAt R.noted room.old bundle.old s → PumpsWhole R.noted room.new bundle.new s result }
    ensures memory { IsErr result → IsTrue (recorder_may_refuse R.may_refuse room.old) }
    ensures recorder { recorder_may_refuse R.may_refuse room.new ≡ recorder_may_refuse R.may_refuse room.old }
{
    let before = bundle.queued();
    let order = bundle.order();
    match drain_legs(room, bundle, &order, newest, scratch) {
        Ok(taken) => {
            let forwarded = u32::from(bundle.queued() - before);
            Ok(Pumped {
                forwarded,
                dropped: taken - forwarded,
            })
        }
        Err(fault) => Err(fault),
    }
}
