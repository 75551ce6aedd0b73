// Two rooms, of which the first feeds the second, and the receivers of the second room's subscribers.
ghost use Rattle.std.specs.Prelude.{◌≡◌, IfOk, OnOk, false};
ghost use Rattle.sfu_base.specs.Answer.{is_starved};
ghost use Rattle.cascade.specs.Calls.{Both, after_packet, after_tick, all_fed, opened, ticked_first, ticked_second, viewed, wish_for};
ghost use Rattle.cascade.specs.Standing.{AreAfter, StandsAfter};

use crate::endpoint::{EXTENSION, Endpoint, SEAT};
use crate::feeding::feed;
use room_core::{KeepNone, Room};
use sfu_base::{Kind, NoMemory, PacketBuf, Refusal, Reply, Scratch, Wish};
use std::alloc::Global;

const PUBLISHER: u32 = 0x1111_1111;

// The tracks' hold in milliseconds: how long packets wait for a gap to be filled.
const HOLD: u32 = 50;

/// Two rooms and three strict receivers. Packets taken from the first room are fed to the second room. Each of the second room's three subscribers
/// has its own receiver.
#[derive(Drop)]
pub struct TwoRooms {
    /// The publisher's room. The packets that its subscribers 1 and 2 take are fed to the second room.
    pub first: Room<KeepNone>,
    /// The second room. Its track 1 is layered, and its track 2 is plain.
    pub second: Room<KeepNone>,
    /// The buffers for the output of the calls. A take writes its packet into them.
    pub scratch: Scratch,
    /// The receiver of the second room's subscriber 1. This subscriber has track 1, and wishes for all layers.
    pub one: Endpoint,
    /// The receiver of the second room's subscriber 2. This subscriber has track 1, and wishes for only the lowest layer.
    pub two: Endpoint,
    /// The receiver of the second room's subscriber 3. This subscriber has track 2.
    pub three: Endpoint,
}

/// Returns `NoMemory` if the reply says that the call ran out of memory.
pub fn found(reply: Reply) -> Result<(), NoMemory>
    ensures { OnOk result (is_starved reply ≡ false) }
{
    match reply {
        Reply::Refused(Refusal::NoMemory) => Err(NoMemory),
        _ => Ok(()),
    }
}

/// A wish for all layers up to and including this spatial and this temporal layer.
pub fn wish(spatial: u8, temporal: u8) -> Wish
    ensures { result ≡ wish_for spatial temporal }
{
    Wish { spatial, temporal }
}

// Returns the first room, in which the track is published and its two subscribers have joined.
fn open_first(alloc: Global) -> Result<Room<KeepNone>, NoMemory>
    ensures { IfOk result (λ room. StandsAfter room opened.first) }
{
    let mut room = Room::new(alloc, KeepNone::new());
    let kind = Kind::Layered { id: EXTENSION };
    found(room.publish(SEAT, 1, kind, PUBLISHER, HOLD))?;
    found(room.join(SEAT, 1, 1, 0x2222_2222, 0, wish(1, 1)))?;
    found(room.join(SEAT, 2, 1, 0x2222_2223, 0, wish(1, 1)))?;
    Ok(room)
}

// Returns the second room, in which the tracks are published and their three subscribers have joined.
fn open_second(alloc: Global) -> Result<Room<KeepNone>, NoMemory>
    ensures { IfOk result (λ room. StandsAfter room opened.second) }
{
    let mut room = Room::new(alloc, KeepNone::new());
    let kind = Kind::Layered { id: EXTENSION };
    found(room.publish(SEAT, 1, kind, 0x2222_2222, HOLD))?;
    found(room.publish(SEAT, 2, Kind::Plain, 0x2222_2223, HOLD))?;
    found(room.join(SEAT, 1, 1, 0x3333_3333, 0, wish(1, 1)))?;
    found(room.join(SEAT, 2, 1, 0x3333_3334, 0, wish(0, 0)))?;
    found(room.join(SEAT, 3, 2, 0x3333_3335, 0, wish(0, 0)))?;
    Ok(room)
}

impl TwoRooms {
    /// Returns two rooms to which no packet has been fed yet. Their tracks are published, and their subscribers have joined. Returns `NoMemory` if
    /// memory runs out for the rooms or for a receiver.
    pub fn new(alloc: Global) -> Result<TwoRooms, NoMemory>
        ensures { IfOk result (λ rooms. AreAfter rooms opened) }
    {
        let first = open_first(alloc)?;
        let second = open_second(alloc)?;
        let one = Endpoint::new(alloc)?;
        let two = Endpoint::new(alloc)?;
        let three = Endpoint::new(alloc)?;
        Ok(TwoRooms {
            first,
            second,
            scratch: Scratch::new(),
            one,
            two,
            three,
        })
    }

    /// Feeds a packet to track 1 of the first room at the time `moment`, in milliseconds. The room may refuse the packet.
    pub fn packet(&mut self, moment: u64, bytes: &PacketBuf)
        ensures { (both : Both) → AreAfter self.old both → AreAfter self.new (after_packet moment bytes.now both) }
    {
        self.first.packet(SEAT, 1, moment, bytes);
    }

    // Feeds the packets queued for a subscriber of the first room to a track of the second.
    fn bring(&mut self, subscriber: u32, track: u32, moment: u64)
        ensures { (both : Both) → AreAfter self.old both → AreAfter self.new (all_fed subscriber track moment both) }
    {
        feed(
            &mut self.first,
            subscriber,
            &mut self.second,
            track,
            moment,
            &mut self.scratch,
        );
    }

    // Ticks the first room at this moment.
    fn tick_first(&mut self, moment: u64)
        ensures { (both : Both) → AreAfter self.old both → AreAfter self.new (ticked_first moment both) }
    {
        self.first.tick(SEAT, 1, moment);
    }

    // Ticks both tracks of the second room at this moment.
    fn tick_second(&mut self, moment: u64)
        ensures { (both : Both) → AreAfter self.old both → AreAfter self.new (ticked_second moment both) }
    {
        self.second.tick(SEAT, 1, moment);
        self.second.tick(SEAT, 2, moment);
    }

    // Makes each subscriber of the second room take all packets queued for it.
    fn view(&mut self)
        ensures { (both : Both) → AreAfter self.old both → AreAfter self.new (viewed both) }
    {
        self.one.take_all(1, &mut self.second, &mut self.scratch);
        self.two.take_all(2, &mut self.second, &mut self.scratch);
        self.three.take_all(3, &mut self.second, &mut self.scratch);
    }

    /// Ticks the first room's track at the time `moment`, in milliseconds. Then feeds the packets queued for the first room's subscriber 1 to the
    /// second room's track 1, and those queued for subscriber 2 to track 2. Then ticks both tracks of the second room. Finally, each subscriber of
    /// the second room takes all its queued packets.
    pub fn tick(&mut self, moment: u64)
        ensures { (both : Both) → AreAfter self.old both → AreAfter self.new (after_tick moment both) }
    {
        self.tick_first(moment);
        self.bring(1, 1, moment);
        self.bring(2, 2, moment);
        self.tick_second(moment);
        self.view();
    }
}
