//! Tests of a room behind the lock. In some tests one thread uses the lock's seats, and in others two threads use them.
ghost use Rattle.std.specs.Prelude.{◌≡◌, []};

use room_core::{KeepNone, Room};
use sfu_base::{Call, Kind, PacketBuf, Refusal, Reply, Scratch, Wish};
use sfu_serve::SharedRoom;
use std::alloc::Global;
use std::sync::Wait;
use std::test::Fail;
use std::thread;
use turn_lock::{Held, Seat, Turns};

pub(crate) type Shared = SharedRoom<KeepNone>;

const SSRC: u32 = 0x1111_1111;

const PACKETS: u16 = 500;

// Returns a room on which no call was made yet.
pub(crate) fn empty_room(alloc: Global) -> Shared
    ensures { ⟦<SharedRoom<KeepNone> as Held>⟧.stands result [] }
{
    SharedRoom {
        room: Room::new(alloc, KeepNone::new()),
    }
}

pub(crate) fn empty_scratch() -> Scratch {
    Scratch::new()
}

pub(crate) fn publish() -> Call {
    Call::Publish {
        track: 1,
        kind: Kind::Plain,
        ssrc: SSRC,
        hold: 100,
    }
}

// The packets sent to subscriber 1 are numbered from 0.
pub(crate) fn join() -> Call {
    Call::Join {
        subscriber: 1,
        track: 1,
        ssrc: 0x2222_2222,
        first: 0,
        wish: Wish {
            spatial: 0,
            temporal: 0,
        },
    }
}

// A packet of track 1: payload type 96, this sequence number, SSRC 11111111, payload aabb (RFC 3550, section 5.1).
pub(crate) fn packet(number: u16) -> Call {
    let [high, low] = number.to_be_bytes();
    let mut bytes = PacketBuf::new();
    bytes.fill(&[
        0x80, 0x60, high, low, 0, 0, 0, 0, 0x11, 0x11, 0x11, 0x11, 0xaa, 0xbb,
    ]);
    Call::Packet {
        track: 1,
        moment: 0,
        bytes,
    }
}

fn take() -> Call {
    Call::Take { subscriber: 1 }
}

#[test]
fn a_packet_of_one_seat_is_taken_by_another(rt: HostRuntime) -> Result<(), Fail> {
    let mut scratch = empty_scratch();
    let (turns, mut seat) = Turns::new(rt.alloc(), empty_room(rt.alloc()), 0)?;
    let mut publisher = turns.split(&mut seat);
    let mut subscriber = turns.split(&mut seat);
    let published = turns.turn(&rt, &mut seat, &publish(), &mut scratch)?;
    let joined = turns.turn(&rt, &mut seat, &join(), &mut scratch)?;
    let nothing = turns.turn(&rt, &mut subscriber, &take(), &mut scratch)?;
    let brought = turns.turn(&rt, &mut publisher, &packet(7), &mut scratch)?;
    let taken = turns.turn(&rt, &mut subscriber, &take(), &mut scratch)?;
    assert_eq!(rt; (published.place, published.reply), (0, Reply::Done));
    assert_eq!(rt; (joined.place, joined.reply), (1, Reply::Done));
    assert_eq!(rt;
        (nothing.place, nothing.reply),
        (2, Reply::Refused(Refusal::Empty))
    );
    assert_eq!(rt; (brought.place, brought.reply), (3, Reply::Done));
    assert_eq!(rt; (taken.place, taken.reply), (4, Reply::Packet));
    let sent = [
        0x80, 0x60, 0, 0, 0, 0, 0, 0, 0x22, 0x22, 0x22, 0x22, 0xaa, 0xbb,
    ];
    assert_eq!(rt; scratch.packet.bytes(), sent.as_slice());
    Ok(())
}

// Feeds all packets to the track, in order. Returns whether each was accepted.
fn bring<W: Wait + Sync>(rt: &W, turns: &Turns<Shared>, mut seat: Seat<Shared>) -> bool
    requires { seat.lock ≡ turns.now }
{
    let mut scratch = empty_scratch();
    for number in 0..PACKETS {
        let Ok(turn) = turns.turn(rt, &mut seat, &packet(number), &mut scratch) else {
            return false;
        };
        if turn.reply != Reply::Done {
            return false;
        }
    }
    true
}

// Makes `PACKETS` takes. Each packet must have the next sequence number, from `first` on. Returns the number after the last
// packet. Returns `None` if a turn failed, a take was refused for another reason than `Empty`, or a packet had another number.
fn take_in_order<W: Wait + Sync>(
    rt: &W,
    turns: &Turns<Shared>,
    seat: &mut Seat<Shared>,
    first: u16,
) -> Option<u16>
    requires { seat.old.lock ≡ turns.now }
    ensures { seat.new.lock ≡ turns.now }
{
    let mut scratch = empty_scratch();
    let mut next = first;
    for _ in 0..PACKETS {
        let Ok(turn) = turns.turn(rt, seat, &take(), &mut scratch) else {
            return None;
        };
        match turn.reply {
            Reply::Packet => {
                let [high, low] = next.to_be_bytes();
                if !scratch.packet.bytes().starts_with(&[0x80, 0x60, high, low]) {
                    return None;
                }
                next = next.wrapping_add(1);
            }
            Reply::Refused(Refusal::Empty) => (),
            _ => return None,
        }
    }
    Some(next)
}

#[test]
fn what_one_thread_brings_another_takes_in_order(rt: HostRuntime) -> Result<(), Fail> {
    let mut scratch = empty_scratch();
    let (turns, mut seat) = Turns::new(rt.alloc(), empty_room(rt.alloc()), 0)?;
    turns.turn(&rt, &mut seat, &publish(), &mut scratch)?;
    turns.turn(&rt, &mut seat, &join(), &mut scratch)?;
    let publisher = turns.split(&mut seat);
    let mut subscriber = turns.split(&mut seat);
    let (brought, taken) = {
        let (rt, turns) = (&rt, &turns);
        thread::join(
            rt,
            move || -> bool
                requires { publisher.lock ≡ turns.now }
            { bring(rt, turns, publisher) },
            || -> Option<u16>
                requires { subscriber.lock ≡ turns.now }
            { take_in_order(rt, turns, &mut subscriber, 0) },
        )
    };
    assert!(rt; brought);
    let Some(next) = taken else {
        panic!(rt; "a take was refused, or gave a packet out of order")
    };
    assert_eq!(rt; take_in_order(&rt, &turns, &mut seat, next), Some(PACKETS));
    let after = turns.turn(&rt, &mut seat, &take(), &mut scratch)?;
    assert_eq!(rt;
        (after.place, after.reply),
        (1_502, Reply::Refused(Refusal::Empty))
    );
    Ok(())
}
