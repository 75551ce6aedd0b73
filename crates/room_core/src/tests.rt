// Tests of rooms with plain and layered tracks. A row lists calls with their expected replies. The packets have the formats of RFC 3550 and RFC 8285.
// The descriptors have the format of Appendix A of RTP Payload Format For AV1.
ghost use Rattle.std.specs.Prelude.{◌≤◌, length};

mod counts;
mod current_target;
mod masks;
mod ready;
mod sharing;

use crate::{KeepAll, KeepNone, Room};
use sfu_base::{Call, Kind, PacketBuf, Refusal, Reply, Scratch, Verdict, Wish};
use std::mem::size_of;
use std::process::Abort;
use std::test::Fail;

const SSRC: u32 = 0x1111_1111;

const LAYERED: Kind = Kind::Layered { id: 4 };

const LOWEST: Wish = Wish {
    spatial: 0,
    temporal: 0,
};

const HIGHEST: Wish = Wish {
    spatial: 1,
    temporal: 1,
};

// A packet with payload type 96, sequence number 1, SSRC 11111111, and payload aabb.
const PLAIN: [u8; 14] = [
    0x80, 0x60, 0, 1, 0, 0, 0, 0, 0x11, 0x11, 0x11, 0x11, 0xaa, 0xbb,
];

// A packet with sequence number 0 and SSRC 11111111. The header extension element with id 4 has the descriptor. The packet is the first and last of
// frame 0, which has template 0. The structure has two spatial and two temporal layers. Templates 0 to 2 are for the lower spatial layer, and
// templates 3 to 5 for the higher one. For each spatial layer, the first template is for key frames, and the other two are for the first and the
// second temporal layer.
const KEY: [u8; 47] = [
    0x90, 0x60, 0, 0, 0, 0, 0, 0, 0x11, 0x11, 0x11, 0x11, 0x10, 0x00, 0, 7, 4, 25, 0xc0, 0, 0,
    0x80, 0x03, 0x18, 0x7f, 0xaf, 0xac, 0x4a, 0x0a, 0x04, 0x04, 0xd1, 0x41, 0x09, 0xa1, 0x15, 0x80,
    0x08, 0x64, 0x22, 0x22, 0x26, 0x40, 0, 0x18, 0x30, 0x00,
];

// Returns `KEY` as it is sent: after the structure, it has the mask of these targets. Bit i of the mask is for target i.
fn key_remasking(mask: u8) -> [u8; 47] {
    let mut key = KEY;
    key[21] = 0xc0;
    key[42] = 0x40 | mask;
    key
}

// Returns a packet that is a complete frame with this template. The marker is set if the frame is the last of its temporal unit. Frames with
// templates 1 and 4 refer to the frame whose number is 4 lower.
fn frame(seq: u16, number: u16, template: u8) -> [u8; 23] {
    let [high, low] = seq.to_be_bytes();
    let [number_high, number_low] = number.to_be_bytes();
    let marker = if template >= 3 { 0xe0 } else { 0x60 };
    [
        0x90,
        marker,
        high,
        low,
        0,
        0,
        0,
        0,
        0x11,
        0x11,
        0x11,
        0x11,
        0xbe,
        0xde,
        0,
        1,
        0x42,
        0xc0 | template,
        number_high,
        number_low,
        0x10,
        0x30,
        0x00,
    ]
}

fn buffer(bytes: &[u8]) -> PacketBuf
    requires { length bytes.now ≤ 2048 }
{
    let mut packet = PacketBuf::new();
    packet.fill(bytes);
    packet
}

// Returns the call with a packet of the track that arrives at moment 0.
fn packet(track: u32, bytes: &[u8]) -> Call
    requires { length bytes.now ≤ 2048 }
{
    Call::Packet {
        track,
        moment: 0,
        bytes: buffer(bytes),
    }
}

fn publish(track: u32, kind: Kind) -> Call {
    Call::Publish {
        track,
        kind,
        ssrc: SSRC,
        hold: 100,
    }
}

// Returns the join of a subscriber. Its packets are sent with SSRC 22222222, and with sequence numbers that begin at 7.
fn join(subscriber: u32, track: u32, wish: Wish) -> Call {
    Call::Join {
        subscriber,
        track,
        ssrc: 0x2222_2222,
        first: 7,
        wish,
    }
}

fn take(subscriber: u32) -> Call {
    Call::Take { subscriber }
}

fn refused(why: Refusal) -> Reply {
    Reply::Refused(why)
}

fn scratch() -> Scratch {
    Scratch::new()
}

// Returns the packet that is sent for these bytes. It has this sequence number, this marker and SSRC 22222222.
fn outgoing(bytes: &[u8], seq: u16, marker: bool) -> PacketBuf
    requires { length bytes.now ≤ 2048 }
{
    let mut packet = PacketBuf::new();
    let [high, low] = seq.to_be_bytes();
    for (place, byte) in bytes.iter().enumerate() {
        let sent = match place {
            1 => { if marker { 0xe0 } else { 0x60 } }
            2 => high,
            3 => low,
            8..12 => 0x22,
            _ => *byte,
        };
        if packet.bytes().len() < 2048 {
            packet.append(&[sent]);
        }
    }
    packet
}

// Serves a row of calls, and compares each reply with the expected one.
fn serve(rt: &impl Abort, room: &mut Room<KeepNone>, scratch: &mut Scratch, row: &[(Call, Reply)]) {
    for (call, reply) in row {
        assert_eq!(rt; room.serve(0, call, scratch), *reply, "{call:?}");
    }
}

#[test]
fn a_packet_goes_out_by_the_methods(rt: HostRuntime) {
    let mut room = Room::new(rt.alloc(), KeepNone::new());
    let mut scratch = scratch();
    assert_eq!(rt; room.publish(0, 1, Kind::Plain, SSRC, 100), Reply::Done);
    assert_eq!(rt; room.join(0, 1, 1, 0x2222_2222, 7, LOWEST), Reply::Done);
    assert_eq!(rt; room.take(0, 1, &mut scratch), refused(Refusal::Empty));
    assert_eq!(rt; room.packet(0, 1, 0, &buffer(&PLAIN)), Reply::Done);
    assert_eq!(rt; room.take(0, 1, &mut scratch), Reply::Packet);
    assert_eq!(rt; scratch.packet.bytes(), outgoing(&PLAIN, 7, false).bytes());
    assert_eq!(rt; room.take(0, 1, &mut scratch), refused(Refusal::Empty));
    assert_eq!(rt; room.resend(0, 1, 7, &mut scratch), Reply::Packet);
    assert_eq!(rt; room.missing(0, 1, &mut scratch), Reply::Names);
    assert!(rt; scratch.names.numbers().is_empty());
    assert_eq!(rt; room.key_wanted(0, 1), Reply::Key { wanted: false });
    assert_eq!(rt; room.plead(0, 1), refused(Refusal::Plain));
    assert_eq!(rt; room.why(0, 1, 0), refused(Refusal::Ahead { newest: None }));
    assert_eq!(rt; room.aim(0, 1, HIGHEST), Reply::Done);
    assert_eq!(rt; room.tick(0, 1, 200), Reply::Done);
    assert_eq!(rt; room.unpublish(0, 1), Reply::Done);
    assert_eq!(rt; room.leave(0, 1), Reply::Done);
    assert_eq!(rt; room.leave(0, 1), refused(Refusal::NoSubscriber));
}

#[test]
fn a_recorder_has_the_seats_and_calls_in_order(rt: HostRuntime) -> Result<(), Fail> {
    let alloc = rt.alloc();
    let mut room = Room::new(alloc, KeepAll::new(alloc));
    let mut scratch = scratch();
    let calls = [
        publish(1, Kind::Plain),
        join(1, 1, LOWEST),
        take(1),
        packet(1, &PLAIN),
        take(1),
        take(1),
    ];
    for (place, call) in calls.iter().enumerate() {
        let seat = 9 - place as u32;
        room.serve(seat, call, &mut scratch);
    }
    let kept = room.into_recorder();
    assert_eq!(rt; kept.len(), 6);
    for (place, call) in calls.iter().enumerate() {
        if place < kept.len() {
            assert_eq!(rt; kept.seat(place), 9 - place as u32);
            let said = format!(in alloc; "{:?}", kept.call(place))?;
            let wanted = format!(in alloc; "{call:?}")?;
            assert_eq!(rt; said.as_str(), wanted.as_str());
        }
    }
    Ok(())
}

#[test]
fn the_65th_track_is_one_too_many(rt: HostRuntime) {
    let mut room = Room::new(rt.alloc(), KeepNone::new());
    let mut scratch = scratch();
    for track in 1..65 {
        assert_eq!(rt; room.publish(0, track, Kind::Plain, SSRC, 0), Reply::Done);
    }
    serve(
        &rt,
        &mut room,
        &mut scratch,
        &[
            (
                publish(65, Kind::Plain),
                refused(Refusal::TooMany { live: 64 }),
            ),
            (
                publish(64, Kind::Plain),
                refused(Refusal::NumberUsed { highest: 64 }),
            ),
            (Call::Unpublish { track: 64 }, Reply::Done),
            (
                publish(64, Kind::Plain),
                refused(Refusal::NumberUsed { highest: 64 }),
            ),
            (
                publish(65, Kind::Layered { id: 15 }),
                refused(Refusal::BadExtensionId),
            ),
            (publish(65, LAYERED), Reply::Done),
        ],
    );
}

#[test]
fn the_kind_is_that_of_the_join(rt: HostRuntime) {
    let mut room = Room::new(rt.alloc(), KeepNone::new());
    let mut scratch = scratch();
    let no_subscriber = refused(Refusal::NoSubscriber);
    assert_eq!(rt; room.kind_of(2), Err(Refusal::NoSubscriber));
    serve(
        &rt,
        &mut room,
        &mut scratch,
        &[
            (publish(1, Kind::Plain), Reply::Done),
            (publish(2, LAYERED), Reply::Done),
            (join(1, 1, LOWEST), Reply::Done),
            (join(2, 2, LOWEST), Reply::Done),
        ],
    );
    assert_eq!(rt; room.kind_of(1), Ok(Kind::Plain));
    assert_eq!(rt; room.kind_of(2), Ok(LAYERED));
    serve(
        &rt,
        &mut room,
        &mut scratch,
        &[
            (Call::Unpublish { track: 2 }, Reply::Done),
            (Call::Leave { subscriber: 1 }, Reply::Done),
            (take(1), no_subscriber),
            (take(2), refused(Refusal::Empty)),
        ],
    );
    assert_eq!(rt; room.kind_of(1), Err(Refusal::NoSubscriber));
    assert_eq!(rt; room.kind_of(2), Ok(LAYERED));
}

// Takes one packet, and compares it with the expected packet.
fn expect(
    rt: &impl Abort,
    room: &mut Room<KeepNone>,
    scratch: &mut Scratch,
    subscriber: u32,
    wanted: &PacketBuf,
) {
    assert_eq!(rt;
        room.take(0, subscriber, scratch),
        Reply::Packet,
        "{subscriber}"
    );
    assert_eq!(rt; scratch.packet.bytes(), wanted.bytes(), "{subscriber}");
}

#[test]
fn each_subscriber_gets_its_own(rt: HostRuntime) {
    let mut room = Room::new(rt.alloc(), KeepNone::new());
    let mut scratch = scratch();
    let empty = refused(Refusal::Empty);
    serve(
        &rt,
        &mut room,
        &mut scratch,
        &[
            (publish(1, LAYERED), Reply::Done),
            (publish(2, Kind::Plain), Reply::Done),
            (join(1, 1, HIGHEST), Reply::Done),
            (join(2, 1, LOWEST), Reply::Done),
            (join(3, 2, HIGHEST), Reply::Done),
            (packet(1, &KEY), Reply::Done),
            (packet(1, &frame(1, 1, 3)), Reply::Done),
            (take(3), empty),
            (packet(2, &PLAIN), Reply::Done),
        ],
    );
    expect(&rt, &mut room, &mut scratch, 3, &outgoing(&PLAIN, 7, false));
    // The subscriber with the highest target gets both frames. The subscriber with the lowest target gets only the first frame, which is the last of
    // the temporal unit for this target. For each subscriber, the key frame has the mask of that subscriber's targets.
    expect(
        &rt,
        &mut room,
        &mut scratch,
        1,
        &outgoing(&key_remasking(15), 7, false),
    );
    expect(
        &rt,
        &mut room,
        &mut scratch,
        1,
        &outgoing(&frame(1, 1, 3), 8, true),
    );
    expect(
        &rt,
        &mut room,
        &mut scratch,
        2,
        &outgoing(&key_remasking(8), 7, true),
    );
    serve(
        &rt,
        &mut room,
        &mut scratch,
        &[
            (take(1), empty),
            (take(2), empty),
            (take(3), empty),
            (
                Call::Why {
                    subscriber: 2,
                    number: 0,
                },
                Reply::Cause(Verdict::Passed),
            ),
            (Call::Leave { subscriber: 1 }, Reply::Done),
            (take(1), refused(Refusal::NoSubscriber)),
            (packet(1, &frame(2, 2, 2)), Reply::Done),
            (packet(1, &frame(3, 3, 5)), Reply::Done),
            (take(2), empty),
            (packet(1, &frame(4, 4, 1)), Reply::Done),
            (packet(1, &frame(5, 5, 4)), Reply::Done),
        ],
    );
    expect(
        &rt,
        &mut room,
        &mut scratch,
        2,
        &outgoing(&frame(4, 4, 1), 8, true),
    );
    assert_eq!(rt; room.take(0, 2, &mut scratch), empty);
}

#[test]
fn a_full_queue_withholds_nothing_from_another(rt: HostRuntime) {
    let mut room = Room::new(rt.alloc(), KeepNone::new());
    let mut scratch = scratch();
    serve(
        &rt,
        &mut room,
        &mut scratch,
        &[
            (publish(1, LAYERED), Reply::Done),
            (join(1, 1, HIGHEST), Reply::Done),
            (join(2, 1, LOWEST), Reply::Done),
            (packet(1, &KEY), Reply::Done),
            (packet(1, &frame(1, 1, 3)), Reply::Done),
        ],
    );
    expect(
        &rt,
        &mut room,
        &mut scratch,
        2,
        &outgoing(&key_remasking(8), 7, true),
    );
    // The first subscriber takes no packet, so its queue is full before frame 1024.
    for unit in 1u16..258 {
        let lower = frame(2 * unit, 4 * unit, 1);
        let higher = frame(2 * unit + 1, 4 * unit + 1, 4);
        assert_eq!(rt; room.packet(0, 1, 0, &buffer(&lower)), Reply::Done);
        assert_eq!(rt; room.packet(0, 1, 0, &buffer(&higher)), Reply::Done);
        expect(
            &rt,
            &mut room,
            &mut scratch,
            2,
            &outgoing(&lower, 7 + unit, true),
        );
    }
    let full = Verdict::Full {
        queued: 512,
        needed: 1,
    };
    for (subscriber, number, verdict) in [
        (1, 1021, Verdict::Passed),
        (1, 1024, full),
        (2, 1024, Verdict::Passed),
    ] {
        assert_eq!(rt;
            room.why(0, subscriber, number),
            Reply::Cause(verdict),
            "{subscriber} {number}"
        );
    }
    expect(
        &rt,
        &mut room,
        &mut scratch,
        1,
        &outgoing(&key_remasking(15), 7, false),
    );
}

// A room should be small, because the lock of a room moves the room twice per turn.
#[test]
fn a_room_is_at_most_256_bytes(rt: HostRuntime) -> Result<(), Fail> {
    assert!(rt; size_of::<Room<KeepNone>>() <= 256);
    Ok(())
}
