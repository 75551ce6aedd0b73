//! Tests of sessions that run step by step on a room of one thread, as in the loop of a server with its own room and sockets. These tests take no lock
//! and never wait.
ghost use Rattle.std.specs.Prelude.{ℕ, List, OnOk};
ghost use Rattle.room_core.specs.History.{Entry};
ghost use Rattle.room_core.specs.Serves.{Stands};
ghost use Rattle.session_steps.specs.Stepping.{Waits};

use crate::session_tests::{NACK, OUT_SSRC, PLI, SSRC};
use crate::shared_room_tests::{empty_scratch, join, packet, publish};
use room_core::{KeepNone, Recorder, Room};
use rtx_stream::Rtx;
use session_steps::{ControlSession, Output, PublisherSession, Session, SubscriberSession};
use sfu_base::{Call, Kind, PacketBuf, Wish};
use std::alloc::{AllocError, Global};
use std::test::Fail;

// A socket's receive. It returns this datagram. If the datagram has no bytes or too many, it returns nothing.
fn receive(datagram: &[u8], into: &mut PacketBuf) -> bool {
    if datagram.is_empty() {
        return false;
    }
    if datagram.len() > 2048 {
        return false;
    }
    into.fill(datagram);
    true
}

// Appends the datagram that is to be sent, if there is one, to `sent`.
fn send(sent: &mut Vec<PacketBuf>, output: Output, packet: &PacketBuf) -> Result<(), AllocError> {
    if output == Output::Packet {
        let mut datagram = PacketBuf::new();
        datagram.fill(packet.bytes());
        sent.push(datagram)?;
    }
    Ok(())
}

// A server's loop: runs a session on a room, with one turn for each receive and its moment. Appends what the session sends to `sent`.
fn serve_alone<R: Recorder, S: Session>(
    room: &mut Room<R>,
    session: &mut S,
    receives: &[(u64, &[u8])],
    sent: &mut Vec<PacketBuf>,
) -> Result<(), AllocError>
    requires stands { (history : List Entry) × Stands R.noted room.old history }
    requires waits { (turns : ℕ) → Waits (S.left session.old turns) turns }
    ensures stands { OnOk result ((history : List Entry) × Stands R.noted room.new history) }
{
    let mut scratch = empty_scratch();
    for (moment, datagram) in receives {
        let came = receive(datagram, &mut scratch.packet);
        let output = session.received(came, *moment, &mut scratch);
        send(sent, output, &scratch.packet)?;
        while let Some(call) = session.call() {
            let reply = room.serve(0, call, &mut scratch);
            let output = session.replied(reply, &mut scratch);
            send(sent, output, &scratch.packet)?;
        }
    }
    Ok(())
}

// Returns a room on which these calls were made.
fn room_of(alloc: Global, calls: &[Call]) -> Room<KeepNone>
    ensures { (history : List Entry) × Stands ⟦<KeepNone as Recorder>⟧.noted result history }
{
    let mut room = Room::new(alloc, KeepNone::new());
    let mut scratch = empty_scratch();
    for call in calls {
        room.serve(0, call, &mut scratch);
    }
    room
}

// Returns whether a session sends exactly the datagrams `wanted`, on a room on which `calls` were made.
fn sends<S: Session>(
    alloc: Global,
    calls: &[Call],
    session: &mut S,
    receives: &[(u64, &[u8])],
    wanted: &[&[u8]],
) -> Result<bool, AllocError>
    requires waits { (turns : ℕ) → Waits (S.left session.old turns) turns }
{
    let mut sent = Vec::new(alloc);
    let mut room = room_of(alloc, calls);
    serve_alone(&mut room, session, receives, &mut sent)?;
    if sent.len() != wanted.len() {
        return Ok(false);
    }
    for (datagram, bytes) in sent.iter().zip(wanted) {
        if datagram.bytes() != *bytes {
            return Ok(false);
        }
    }
    Ok(true)
}

// The packets 1000 and 1002 as a publisher sends them: SSRC 11111111 and the payload aabb (RFC 3550, section 5.1).
const FIRST: [u8; 14] = [
    0x80, 0x60, 0x03, 0xe8, 0, 0, 0, 0, 0x11, 0x11, 0x11, 0x11, 0xaa, 0xbb,
];

const THIRD: [u8; 14] = [
    0x80, 0x60, 0x03, 0xea, 0, 0, 0, 0, 0x11, 0x11, 0x11, 0x11, 0xaa, 0xbb,
];

// Missing packets are requested in the first turn, and then at intervals of at least 20 milliseconds.
#[test]
fn a_publisher_is_asked_for_what_is_missing_step_by_step(rt: HostRuntime) -> Result<(), Fail> {
    let cases: [(&[(u64, &[u8])], &[&[u8]]); 4] = [
        (&[(0, &FIRST), (20, &THIRD)], &[&NACK]),
        (&[(0, &FIRST), (19, &THIRD)], &[]),
        (
            &[(0, &FIRST), (20, &THIRD), (39, &[]), (40, &[])],
            &[&NACK, &NACK],
        ),
        // RTCP isn't fed to the track
        (&[(0, &FIRST), (20, &PLI)], &[]),
    ];
    for (receives, wanted) in cases {
        let mut session = PublisherSession::new(1, SSRC);
        let are_sent = sends(rt.alloc(), &[publish()], &mut session, receives, wanted)?;
        assert!(rt; are_sent);
    }
    Ok(())
}

// Before the first packet of a layered track, its publisher is asked for a key frame at intervals of at least 500 milliseconds.
#[test]
fn a_publisher_is_asked_for_a_key_frame(rt: HostRuntime) -> Result<(), Fail> {
    let cases: [(&[(u64, &[u8])], &[&[u8]]); 4] = [
        (&[(0, &[]), (20, &[])], &[&PLI]),
        (&[(0, &[]), (499, &[])], &[&PLI]),
        (&[(0, &[]), (500, &[])], &[&PLI, &PLI]),
        (&[(0, &[]), (499, &[]), (519, &[])], &[&PLI, &PLI]),
    ];
    for (receives, wanted) in cases {
        let layered = Call::Publish {
            track: 1,
            kind: Kind::Layered { id: 7 },
            ssrc: SSRC,
            hold: 100,
        };
        let mut session = PublisherSession::new(1, SSRC);
        let are_sent = sends(
            rt.alloc(),
            &[layered, join()],
            &mut session,
            receives,
            wanted,
        )?;
        assert!(rt; are_sent);
    }
    Ok(())
}

// The packets 0 and 1 as they are sent to subscriber 1 (RFC 3550, section 5.1).
const ZERO: [u8; 14] = [
    0x80, 0x60, 0, 0, 0, 0, 0, 0, 0x22, 0x22, 0x22, 0x22, 0xaa, 0xbb,
];

const ONE: [u8; 14] = [
    0x80, 0x60, 0, 1, 0, 0, 0, 0, 0x22, 0x22, 0x22, 0x22, 0xaa, 0xbb,
];

// A NACK for packet 0 with the SSRC of the sent media, and one with another SSRC (RFC 4585, section 6.2.1).
const RESEND: [u8; 16] = [
    0x81, 0xcd, 0, 3, 0, 0, 0, 9, 0x22, 0x22, 0x22, 0x22, 0, 0, 0, 0,
];

const OTHER: [u8; 16] = [
    0x81, 0xcd, 0, 3, 0, 0, 0, 9, 0x33, 0x33, 0x33, 0x33, 0, 0, 0, 0,
];

// The retransmission of packet 0, with sequence number 0 on its stream (RFC 4588, section 4).
const RESENT: [u8; 16] = [
    0x80, 0x61, 0, 0, 0, 0, 0, 0, 0x33, 0x33, 0x33, 0x33, 0, 0, 0xaa, 0xbb,
];

// In each turn the received feedback is served, and then the queued packets are taken.
#[test]
fn a_subscriber_is_answered_its_feedback(rt: HostRuntime) -> Result<(), Fail> {
    let rtx = Rtx {
        ssrc: 0x3333_3333,
        payload_type: 97,
    };
    let cases: [(Option<Rtx>, &[(u64, &[u8])], &[&[u8]]); 6] = [
        (None, &[(0, &[])], &[&ZERO, &ONE]),
        (None, &[(0, &[]), (1, &RESEND)], &[&ZERO, &ONE, &ZERO]),
        (None, &[(0, &[]), (1, &OTHER)], &[&ZERO, &ONE]),
        // nothing was taken yet, so nothing is resent
        (None, &[(0, &RESEND)], &[&ZERO, &ONE]),
        (
            Some(rtx),
            &[(0, &[]), (1, &RESEND)],
            &[&ZERO, &ONE, &RESENT],
        ),
        (Some(rtx), &[(0, &[]), (1, &OTHER)], &[&ZERO, &ONE]),
    ];
    for (rtx, receives, wanted) in cases {
        let calls = [publish(), join(), packet(7), packet(8)];
        let mut session = SubscriberSession::new(1, OUT_SSRC, rtx);
        let are_sent = sends(rt.alloc(), &calls, &mut session, receives, wanted)?;
        assert!(rt; are_sent);
    }
    Ok(())
}

// A line is a call, and its reply is sent. If no datagram came, nothing is sent.
#[test]
fn a_controller_is_answered(rt: HostRuntime) -> Result<(), Fail> {
    let cases: [(&[u8], &[u8]); 6] = [
        (b"packet 1 0 80", b"fault line"),
        (b"take 1", b"fault line"),
        (b"leave 1\n", b"fault line"),
        (b"leave 1", b"refused nosubscriber"),
        (b"key 1", b"key no"),
        (b"publish 2 plain 33333333 100", b"ok"),
    ];
    for (line, answer) in cases {
        let mut session = ControlSession::new();
        let are_sent = sends(
            rt.alloc(),
            &[publish()],
            &mut session,
            &[(0, line), (1, &[])],
            &[answer],
        )?;
        assert!(rt; are_sent);
    }
    Ok(())
}

// A key frame and a frame that refers to it, as a layered track receives them and as a subscriber is sent them, numbered from 65535 on.
const CAME: [&[u8]; 2] = [
    b"\x90\xe0\x03\xe8\0\0\0\0\x11\x11\x11\x11\xbe\xde\0\x03\x48\xc0\0\x01\x80\0\x3a\x41\x01\0\0\0\x18\x30\0",
    b"\x90\xe0\x03\xe9\0\0\0\0\x11\x11\x11\x11\xbe\xde\0\x01\x42\xc1\0\x02\x10\x30\0",
];

const GOES: [&[u8]; 2] = [
    b"\x90\xe0\xff\xff\0\0\0\0\x22\x22\x22\x22\xbe\xde\0\x03\x48\xc0\0\x01\xc0\0\x3a\x41\x01\x40\0\0\x18\x30\0",
    b"\x90\xe0\0\0\0\0\0\0\x22\x22\x22\x22\xbe\xde\0\x01\x42\xc1\0\x02\x10\x30\0",
];

// A subscriber's session sends what a publisher's session has fed to the room.
#[test]
fn a_subscriber_of_a_layered_track_is_sent_its_frames(rt: HostRuntime) -> Result<(), Fail> {
    let calls = [
        Call::Publish {
            track: 1,
            kind: Kind::Layered { id: 4 },
            ssrc: SSRC,
            hold: 100,
        },
        Call::Join {
            subscriber: 1,
            track: 1,
            ssrc: OUT_SSRC,
            first: 65535,
            wish: Wish {
                spatial: 0,
                temporal: 0,
            },
        },
    ];
    let mut room = room_of(rt.alloc(), &calls);
    let [key, next] = CAME;
    let mut sent = Vec::new(rt.alloc());
    let mut publisher = PublisherSession::new(1, SSRC);
    serve_alone(&mut room, &mut publisher, &[(0, key), (1, next)], &mut sent)?;
    assert_eq!(rt; sent.len(), 0);
    let mut subscriber = SubscriberSession::new(1, OUT_SSRC, None);
    serve_alone(&mut room, &mut subscriber, &[(2, &[])], &mut sent)?;
    assert_eq!(rt; sent.len(), 2);
    for (datagram, bytes) in sent.iter().zip(GOES) {
        assert_eq!(rt; datagram.bytes(), bytes);
    }
    Ok(())
}
