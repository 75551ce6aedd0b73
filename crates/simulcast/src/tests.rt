// Bundles of a room's layered tracks. The packets are laid out by RFC 3550 and RFC 8285, the descriptors by Appendix A of RTP Payload Format
// For AV1; the expected results are worked out by hand from the rules.

use crate::{BundleFault, Bundles, Pumped};
use room_core::{KeepNone, Room};
use sfu_base::{Call, Kind, PacketBuf, Refusal, Reply, Scratch, Wish};
use std::process::Abort;
use std::test::Fail;

const LAYERED: Kind = Kind::Layered { id: 4 };

// A call and its expected result.
#[derive(Clone, Copy)]
enum Step {
    // The track's kind, number and SSRC.
    Publish(Kind, u32, u32),
    // The subscriber and its track.
    Join(u32, u32),
    // Track 1 or 2, the packet's sequence number, and its descriptor.
    Came(u32, u16, &'static [u8]),
    Take(u32, Result<Reply, BundleFault>),
    Leave(u32, Result<Reply, BundleFault>),
    KeyWanted(u32, bool),
    // The bundle's number, header extension id and legs.
    Bundle(u32, u8, &'static [u32], Result<(), BundleFault>),
    Renumbered(u32, u8, &'static [u32], Result<(), BundleFault>),
    Choose(u32, u8, Result<(), BundleFault>),
    Pump(u32, Result<Pumped, BundleFault>),
    Draw(u32, Result<u16, BundleFault>, &'static [u8]),
    Redraw(u32, u16, Result<(), BundleFault>, &'static [u8]),
}

fn pumped(forwarded: u32, dropped: u32) -> Result<Pumped, BundleFault> {
    Ok(Pumped { forwarded, dropped })
}

// The descriptors of frames with one decode target: the key frames 1 and 3, and the delta frames 2 and 3. Each delta frame refers to the previous frame.
const KEY_1: &[u8] = b"\x00\x03\x48\xc0\x00\x01\x80\x00\x3a\x41\x01\x00\x00\x00\x18\x30\x00";

const KEY_3: &[u8] = b"\x00\x03\x48\xc0\x00\x03\x80\x00\x3a\x41\x01\x00\x00\x00\x18\x30\x00";

const FRAME_2: &[u8] = b"\x00\x01\x42\xc1\x00\x02\x10\x30\x00";

const FRAME_3: &[u8] = b"\x00\x01\x42\xc1\x00\x03\x10\x30\x00";

// The packets of the outgoing stream, 10 to 13. The descriptors of packets 10 and 13 carry the bitmask of active decode targets. The timestamp of packet 13
// is 3,000 higher, since leg 2 has become active.
const OUT_10: &[u8] =
    b"\x90\xe0\x00\x0a\x00\x00\x00\x00\x55\x55\x55\x55\xbe\xde\x00\x03\x48\xc0\x00\x01\xc0\x00\x3a\x41\x01\x40\x00\x00\x18\x30\x00";

const OUT_11: &[u8] =
    b"\x90\xe0\x00\x0b\x00\x00\x00\x00\x55\x55\x55\x55\xbe\xde\x00\x01\x42\xc1\x00\x02\x10\x30\x00";

const OUT_12: &[u8] =
    b"\x90\xe0\x00\x0c\x00\x00\x00\x00\x55\x55\x55\x55\xbe\xde\x00\x01\x42\xc1\x00\x03\x10\x30\x00";

const OUT_13: &[u8] =
    b"\x90\xe0\x00\x0d\x00\x00\x0b\xb8\x55\x55\x55\x55\xbe\xde\x00\x03\x48\xc0\x00\x03\xc0\x00\x3a\x41\x01\x40\x00\x00\x18\x30\x00";

// A packet that holds one frame and has the marker bit.
fn packet(track: u32, seq: u16, rest: &[u8]) -> PacketBuf {
    let [high, low] = seq.to_be_bytes();
    let ssrc = if track == 1 { 0x11 } else { 0x44 };
    let mut packet = PacketBuf::new();
    packet.fill(&[
        0x90, 0xe0, high, low, 0, 0, 0, 0, ssrc, ssrc, ssrc, ssrc, 0xbe, 0xde,
    ]);
    if rest.len() <= 100 {
        packet.append(rest);
    }
    packet
}

fn scratch() -> Scratch {
    Scratch::new()
}

fn call(
    rt: &impl Abort,
    bundles: &mut Bundles<KeepNone>,
    call: Call,
    wanted: Result<Reply, BundleFault>,
) {
    assert_eq!(rt; bundles.call(0, &call, &mut scratch()), wanted);
}

fn room_step(rt: &impl Abort, bundles: &mut Bundles<KeepNone>, step: Step) {
    let done = Ok(Reply::Done);
    match step {
        Step::Publish(kind, track, ssrc) => {
            let begins = Call::Publish {
                track,
                kind,
                ssrc,
                hold: 100,
            };
            call(rt, bundles, begins, done);
        }
        Step::Join(subscriber, track) => {
            let joins = Call::Join {
                subscriber,
                track,
                ssrc: 0x2222_2222,
                first: 0,
                wish: Wish {
                    spatial: 0,
                    temporal: 0,
                },
            };
            call(rt, bundles, joins, done);
        }
        Step::Came(track, seq, rest) => {
            let came = Call::Packet {
                track,
                moment: 0,
                bytes: packet(track, seq, rest),
            };
            call(rt, bundles, came, done);
        }
        Step::Take(subscriber, wanted) => {
            call(rt, bundles, Call::Take { subscriber }, wanted);
            let mut bound = None;
            let reply = bundles.take(0, subscriber, &mut scratch(), &mut bound);
            assert_eq!(rt; bound, bundles.owner(subscriber));
            let took = match bound {
                Some(bundle) => Err(BundleFault::Bound { bundle }),
                None => Ok(reply),
            };
            assert_eq!(rt; took, wanted);
        }
        Step::Leave(subscriber, wanted) => call(rt, bundles, Call::Leave { subscriber }, wanted),
        Step::KeyWanted(track, wanted) => {
            call(
                rt,
                bundles,
                Call::KeyWanted { track },
                Ok(Reply::Key { wanted }),
            );
        }
        _ => {}
    }
}

fn bundle_step(rt: &impl Abort, bundles: &mut Bundles<KeepNone>, step: Step) {
    let mut scratch = scratch();
    let mut out = PacketBuf::new();
    match step {
        Step::Bundle(number, id, legs, wanted) => {
            if legs.len() >= 2 && legs.len() <= 3 {
                assert_eq!(rt; bundles.bundle(number, id, 0x5555_5555, 10, legs), wanted);
            }
        }
        Step::Renumbered(number, id, legs, wanted) => {
            if legs.len() >= 2 && legs.len() <= 3 {
                assert_eq!(rt;
                    bundles.bundle_renumbered(number, id, 0x5555_5555, 10, legs),
                    wanted
                );
            }
        }
        Step::Choose(number, leg, wanted) => {
            assert_eq!(rt; bundles.choose(number, leg, &mut scratch), wanted);
        }
        Step::Pump(number, wanted) => {
            assert_eq!(rt; bundles.pump(number, &mut scratch), wanted);
        }
        Step::Draw(number, wanted, bytes) => {
            assert_eq!(rt; bundles.draw(number, &mut out), wanted);
            assert_eq!(rt; out.bytes(), bytes);
        }
        Step::Redraw(number, seq, wanted, bytes) => {
            assert_eq!(rt; bundles.redraw(number, seq, &mut out), wanted);
            assert_eq!(rt; out.bytes(), bytes);
        }
        _ => {}
    }
}

#[test]
fn one_stream_goes_out_of_two_tracks(rt: HostRuntime) {
    let bound = BundleFault::Bound { bundle: 1 };
    let not_kept = Refusal::NotKept {
        oldest: 10,
        next: 14,
    };
    let steps = [
        Step::Publish(LAYERED, 1, 0x1111_1111),
        Step::Publish(LAYERED, 2, 0x4444_4444),
        Step::Publish(Kind::Plain, 3, 0x7777_7777),
        Step::Join(1, 1),
        Step::Join(2, 2),
        Step::Bundle(0, 4, &[1, 2], Err(BundleFault::NumberUsed { highest: 0 })),
        Step::Bundle(1, 4, &[1, 2], Ok(())),
        Step::Came(1, 1000, KEY_1),
        Step::Came(2, 2000, KEY_1),
        Step::Pump(1, pumped(1, 1)),
        Step::KeyWanted(2, false),
        Step::Choose(1, 2, Ok(())),
        Step::KeyWanted(2, true),
        Step::Came(1, 1001, FRAME_2),
        Step::Came(2, 2001, FRAME_2),
        Step::Pump(1, pumped(1, 1)),
        Step::Came(2, 2002, KEY_3),
        Step::Came(1, 1002, FRAME_3),
        Step::Pump(1, pumped(2, 0)),
        Step::Draw(1, Ok(10), OUT_10),
        Step::Draw(1, Ok(11), OUT_11),
        Step::Draw(1, Ok(12), OUT_12),
        Step::Draw(1, Ok(13), OUT_13),
        Step::Draw(1, Err(BundleFault::Room(Refusal::Empty)), &[]),
        Step::Redraw(1, 12, Ok(()), OUT_12),
        Step::Redraw(1, 14, Err(BundleFault::Room(not_kept)), &[]),
        Step::Pump(1, pumped(0, 0)),
        // no key frame is requested from the active leg
        Step::Choose(1, 2, Ok(())),
        Step::KeyWanted(2, false),
        // refused calls, in the order in which the refusals are checked
        Step::Take(1, Err(bound)),
        Step::Leave(2, Err(bound)),
        Step::Bundle(1, 5, &[1, 9], Err(BundleFault::NumberUsed { highest: 1 })),
        Step::Bundle(2, 5, &[1, 9], Err(BundleFault::Room(Refusal::NoSubscriber))),
        Step::Bundle(2, 5, &[1, 2], Err(bound)),
        Step::Join(3, 1),
        Step::Join(4, 3),
        Step::Bundle(2, 4, &[3, 4, 3], Err(BundleFault::Bound { bundle: 2 })),
        Step::Bundle(2, 4, &[3, 4], Err(BundleFault::WrongKind)),
        Step::Join(5, 2),
        Step::Bundle(2, 5, &[3, 5], Err(BundleFault::WrongKind)),
        Step::Bundle(2, 4, &[3, 5], Ok(())),
        Step::Choose(1, 0, Err(BundleFault::NoLeg { legs: 2 })),
        Step::Choose(1, 3, Err(BundleFault::NoLeg { legs: 2 })),
        Step::Choose(9, 0, Err(BundleFault::NoBundle)),
        Step::Pump(9, Err(BundleFault::NoBundle)),
        Step::Draw(9, Err(BundleFault::NoBundle), &[]),
        Step::Redraw(9, 10, Err(BundleFault::NoBundle), &[]),
        Step::Take(4, Ok(Reply::Refused(Refusal::Empty))),
        Step::Leave(4, Ok(Reply::Done)),
    ];
    let mut bundles = Bundles::new(rt.alloc(), Room::new(rt.alloc(), KeepNone::new()));
    for step in steps {
        room_step(&rt, &mut bundles, step);
        bundle_step(&rt, &mut bundles, step);
    }
}

// Packet 11 holds frame 2 of leg 1. Packet 12 holds key frame 1 of leg 2, renumbered to 3, with a timestamp that is 3,000 higher. Packet 13 holds frame 2 of
// leg 2, renumbered to 4.
const KEPT_11: &[u8] =
    b"\x90\xe0\x00\x0b\x00\x00\x00\x00\x55\x55\x55\x55\xbe\xde\x00\x01\x42\xc1\x00\x02\x10\x30\x00";

const MOVED_12: &[u8] =
    b"\x90\xe0\x00\x0c\x00\x00\x0b\xb8\x55\x55\x55\x55\xbe\xde\x00\x03\x48\xc0\x00\x03\xc0\x00\x3a\x41\x01\x40\x00\x00\x18\x30\x00";

const MOVED_13: &[u8] =
    b"\x90\xe0\x00\x0d\x00\x00\x0b\xb8\x55\x55\x55\x55\xbe\xde\x00\x01\x42\xc1\x00\x04\x10\x30\x00";

#[test]
fn frame_numbers_continue(rt: HostRuntime) {
    let steps = [
        Step::Publish(LAYERED, 1, 0x1111_1111),
        Step::Publish(LAYERED, 2, 0x4444_4444),
        Step::Join(1, 1),
        Step::Join(2, 2),
        Step::Renumbered(0, 4, &[1, 2], Err(BundleFault::NumberUsed { highest: 0 })),
        Step::Renumbered(1, 5, &[1, 2], Err(BundleFault::WrongKind)),
        Step::Renumbered(1, 4, &[1, 2], Ok(())),
        Step::Bundle(2, 4, &[1, 2], Err(BundleFault::Bound { bundle: 1 })),
        Step::Came(1, 1000, KEY_1),
        Step::Came(1, 1001, FRAME_2),
        Step::Pump(1, pumped(2, 0)),
        Step::Choose(1, 2, Ok(())),
        Step::Came(2, 2000, KEY_1),
        Step::Came(2, 2001, FRAME_2),
        Step::Pump(1, pumped(2, 0)),
        Step::Draw(1, Ok(10), OUT_10),
        Step::Draw(1, Ok(11), KEPT_11),
        Step::Draw(1, Ok(12), MOVED_12),
        Step::Draw(1, Ok(13), MOVED_13),
        Step::Redraw(1, 12, Ok(()), MOVED_12),
    ];
    let mut bundles = Bundles::new(rt.alloc(), Room::new(rt.alloc(), KeepNone::new()));
    for step in steps {
        room_step(&rt, &mut bundles, step);
        bundle_step(&rt, &mut bundles, step);
    }
}

#[test]
fn the_65th_bundle_is_one_too_many(rt: HostRuntime) {
    let mut bundles = Bundles::new(rt.alloc(), Room::new(rt.alloc(), KeepNone::new()));
    room_step(&rt, &mut bundles, Step::Publish(LAYERED, 1, 0x1111_1111));
    for place in 1..66 {
        let wanted = if place < 65 {
            Ok(())
        } else {
            Err(BundleFault::TooMany { live: 64 })
        };
        room_step(&rt, &mut bundles, Step::Join(2 * place, 1));
        room_step(&rt, &mut bundles, Step::Join(2 * place + 1, 1));
        assert_eq!(rt;
            bundles.bundle(place, 4, 0x5555_5555, 10, &[2 * place, 2 * place + 1]),
            wanted
        );
    }
}
