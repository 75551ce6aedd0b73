// One subscriber, and a strict receiver of the packets that it takes.
ghost use Rattle.std.specs.Prelude.{◌++◌, ◌∷◌, [], List, ℕ, IfOk};
ghost use Rattle.sfu_base.specs.declared.call.Call.{Call};
ghost use Rattle.room_core.specs.Given.{given_to};
ghost use Rattle.cascade.specs.Calls.{all_taken};
ghost use Rattle.cascade.specs.Staged.{IsFedAfter, TakesQueued};
ghost use Rattle.cascade.specs.Standing.{StandsAfter, TakesOne, WasFed};
ghost use Rattle.cascade.specs.Trial.{after_takes};

use room_core::{KeepNone, Room};
use sfu_base::{NoMemory, Reply, Scratch};
use std::alloc::Global;
use strict_receiver::Receiver;

/// The seat from which all calls on the rooms are made.
pub const SEAT: u32 = 0;

/// The header extension id of the dependency descriptors (RFC 8285).
pub const EXTENSION: u8 = 4;

// The capacity of a subscriber's queue, in packets.
const MOST_QUEUED: u32 = 512;

/// The receiving side of a subscriber: a strict receiver of its packets.
#[derive(Drop)]
pub struct Endpoint {
    /// The strict receiver of the packets that the subscriber took.
    pub receiver: Receiver,
    /// Whether the receiver has a complaint about the packets fed to it so far.
    pub complains: bool,
}

impl Endpoint {
    /// Returns an endpoint that has received nothing. Returns `NoMemory` if memory runs out.
    pub fn new(alloc: Global) -> Result<Endpoint, NoMemory>
        ensures { IfOk result (λ endpoint. WasFed endpoint []) }
    {
        Ok(Endpoint {
            receiver: Receiver::new(alloc, EXTENSION)?,
            complains: false,
        })
    }

    // Feeds a packet to the receiver.
    fn feed(&mut self, packet: &[u8])
        ensures { (taken : List (List ℕ)) → WasFed self.old taken → WasFed self.new (taken ++ packet.now ∷ []) }
    {
        self.complains = self.receiver.feed(packet).is_err();
    }

    // Takes the oldest queued packet, if there is one, and feeds it to the receiver. Returns whether there was one.
    fn take_one(
        &mut self,
        subscriber: u32,
        room: &mut Room<KeepNone>,
        scratch: &mut Scratch,
    ) -> bool
        ensures takes { (past : List Call) → StandsAfter room.old past → TakesOne result self.old self.new room.new subscriber past }
        ensures queued { (past : List Call) → IsFedAfter room.old self.old subscriber past → TakesQueued result room.new self.new subscriber past }
    {
        match room.take(SEAT, subscriber, scratch) {
            Reply::Packet => {
                self.feed(scratch.packet.bytes());
                true
            }
            _ => false,
        }
    }

    /// Takes all packets that the room has queued for the subscriber numbered `subscriber`, and feeds each to the receiver.
    pub fn take_all(&mut self, subscriber: u32, room: &mut Room<KeepNone>, scratch: &mut Scratch)
        ensures room { (past : List Call) → StandsAfter room.old past → StandsAfter room.new (all_taken subscriber past) }
        ensures fed { (past : List Call) → StandsAfter room.old past → WasFed self.old (given_to subscriber past)
            → WasFed self.new (given_to subscriber (all_taken subscriber past)) }
        ensures emptied { (past : List Call) → IsFedAfter room.old self.old subscriber past → IsFedAfter room.new self.new subscriber (after_takes subscriber past) }
    {
        'takes: for _count in 0..MOST_QUEUED + 1 {
            if !self.take_one(subscriber, room, scratch) {
                return;
            }
        }
    }
}
