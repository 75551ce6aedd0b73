// A room with one track and three subscribers, each with a strict receiver of its own.
ghost use Rattle.std.specs.Prelude.{List, IfOk};
ghost use Rattle.sfu_base.specs.declared.call.Call.{Call};
ghost use Rattle.sfu_base.specs.declared.call.Call.TheVariants as call;
ghost use Rattle.cascade.specs.Calls.{and_call};
ghost use Rattle.cascade.specs.Trial.{after_takes, opened};
ghost use Rattle.cascade.specs.Staged.{IsStaged};
ghost use Rattle.cascade.specs.Standing.{StandsAfter};

use crate::endpoint::{EXTENSION, Endpoint, SEAT};
use crate::two_rooms::{found, wish};
use room_core::{KeepNone, Room};
use sfu_base::{Kind, NoMemory, PacketBuf, Scratch};
use std::alloc::Global;

const TRACK: u32 = 1;

const PUBLISHER: u32 = 0x1111_1111;

// The track's hold in milliseconds: how long packets wait for a gap to be filled.
const HOLD: u32 = 50;

/// A room with one track, and a strict receiver for each of the track's three subscribers.
#[derive(Drop)]
pub struct Stage {
    pub room: Room<KeepNone>,
    pub scratch: Scratch,
    pub first: Endpoint,
    pub second: Endpoint,
    pub third: Endpoint,
}

// Returns a room in which the track is published and its three subscribers have joined.
fn open(alloc: Global) -> Result<Room<KeepNone>, NoMemory>
    ensures { IfOk result (λ room. StandsAfter room opened) }
{
    let mut room = Room::new(alloc, KeepNone::new());
    let kind = Kind::Layered { id: EXTENSION };
    found(room.publish(SEAT, TRACK, kind, PUBLISHER, HOLD))?;
    found(room.join(SEAT, 1, TRACK, 0x2222_2222, 0, wish(1, 1)))?;
    found(room.join(SEAT, 2, TRACK, 0x2222_2223, 0, wish(1, 0)))?;
    found(room.join(SEAT, 3, TRACK, 0x2222_2224, 0, wish(0, 0)))?;
    Ok(room)
}

impl Stage {
    /// Returns a stage to which no packet has been fed yet. Its track is published, and the three subscribers have joined.
    pub fn new(alloc: Global) -> Result<Stage, NoMemory>
        ensures { IfOk result (λ stage. IsStaged stage opened) }
    {
        let room = open(alloc)?;
        let first = Endpoint::new(alloc)?;
        let second = Endpoint::new(alloc)?;
        let third = Endpoint::new(alloc)?;
        Ok(Stage {
            room,
            scratch: Scratch::new(),
            first,
            second,
            third,
        })
    }

    /// Feeds a packet to the track at the time `moment`, in milliseconds.
    pub fn packet(&mut self, moment: u64, bytes: &PacketBuf)
        ensures { (past : List Call) → IsStaged self.old past → IsStaged self.new (and_call past (call.Packet 1 moment bytes.now)) }
    {
        self.room.packet(SEAT, TRACK, moment, bytes);
    }

    /// Ticks the track at the time `moment`, in milliseconds. Then each subscriber takes all its queued packets.
    pub fn tick(&mut self, moment: u64)
        ensures { (past : List Call) → IsStaged self.old past
            → IsStaged self.new (after_takes 3 (after_takes 2 (after_takes 1 (and_call past (call.Tick 1 moment))))) }
    {
        self.room.tick(SEAT, TRACK, moment);
        self.first.take_all(1, &mut self.room, &mut self.scratch);
        self.second.take_all(2, &mut self.room, &mut self.scratch);
        self.third.take_all(3, &mut self.room, &mut self.scratch);
    }
}
