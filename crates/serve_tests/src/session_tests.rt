//! Tests of sessions over links in memory.
ghost use Rattle.std.specs.Prelude.{◌≡◌, ◌≤◌, length, IfOk};
ghost use Rattle.turn_lock.specs.Known.{Fits};

use crate::shared_room_tests::{Shared, empty_room, empty_scratch, join, packet, publish};
use sfu_base::{Call, Clock, Failed, Link, MemLink, PacketBuf, StepClock};
use sfu_serve::{SessionEnd, control_session, publisher_session, subscriber_session};
use std::alloc::{AllocError, Global};
use std::sync::Wait;
use std::test::Fail;
use turn_lock::{Seat, Turns};

pub const SSRC: u32 = 0x1111_1111;

pub const OUT_SSRC: u32 = 0x2222_2222;

/// Returns the lock of a room on which these calls were made, and the lock's first seat.
pub fn room_after<W: Wait + Sync>(
    rt: &W,
    alloc: Global,
    calls: &[Call],
) -> Result<(Turns<Shared>, Seat<Shared>), Fail>
    ensures lock { IfOk result (λ made. made.1.lock ≡ made.0) }
    ensures first { IfOk result (λ made. (made.1.number ≡ 0) × (made.1.count ≡ 1)) }
    ensures fits { IfOk result (λ made. Fits made.1) }
{
    let mut scratch = empty_scratch();
    let (turns, mut seat) = Turns::new(alloc, empty_room(alloc), 0)?;
    for call in calls {
        turns.turn(rt, &mut seat, call, &mut scratch)?;
    }
    Ok((turns, seat))
}

/// Returns a link that receives these datagrams. The receives with the indices `receive_fails` and the sends with the indices `send_fails` fail. Indices
/// begin at 0.
pub fn link(
    alloc: Global,
    datagrams: &[&[u8]],
    receive_fails: &[u64],
    send_fails: &[u64],
) -> Result<MemLink, AllocError> {
    let mut prepared = Vec::new(alloc);
    for bytes in datagrams {
        let mut datagram = PacketBuf::new();
        if bytes.len() <= 2048 {
            datagram.fill(bytes);
        }
        prepared.push(datagram)?;
    }
    Ok(MemLink::new(
        alloc,
        prepared,
        receive_fails.to_vec(alloc)?,
        send_fails.to_vec(alloc)?,
    ))
}

/// An RTP packet (RFC 3550, section 5.1) with this sequence number. Its SSRC is 0x11111111, and its payload is 0xaabb.
pub fn rtp(number: u16) -> [u8; 14] {
    let [high, low] = number.to_be_bytes();
    [
        0x80, 0x60, high, low, 0, 0, 0, 0, 0x11, 0x11, 0x11, 0x11, 0xaa, 0xbb,
    ]
}

/// The packet `rtp(number)` as it is sent to subscriber 1.
pub fn outgoing(number: u16) -> [u8; 14] {
    let [high, low] = number.to_be_bytes();
    [
        0x80, 0x60, high, low, 0, 0, 0, 0, 0x22, 0x22, 0x22, 0x22, 0xaa, 0xbb,
    ]
}

/// Returns whether exactly these datagrams were sent.
pub fn has_sent(link: &MemLink, wanted: &[&[u8]]) -> bool {
    if link.sent().len() != wanted.len() {
        return false;
    }
    for (datagram, bytes) in link.sent().iter().zip(wanted) {
        if datagram.bytes() != *bytes {
            return false;
        }
    }
    true
}

/// A generic NACK for the packet with sequence number 1001 (RFC 4585, section 6.2.1).
pub const NACK: [u8; 16] = [
    0x81, 0xcd, 0, 3, 0, 0, 0, 1, 0x11, 0x11, 0x11, 0x11, 0x03, 0xe9, 0, 0,
];

/// A picture loss indication (RFC 4585, section 6.3.1).
pub const PLI: [u8; 12] = [0x81, 0xce, 0, 2, 0, 0, 0, 1, 0x11, 0x11, 0x11, 0x11];

// Each receive and each send of a publisher's link fails in turn.
#[test]
fn a_publisher_is_asked_for_what_is_missing(rt: HostRuntime) -> Result<(), Fail> {
    // Each case has the indices of failing receives and sends, the end, and the number of NACKs sent.
    let cases: [(&[u64], &[u64], SessionEnd, usize); 4] = [
        (&[], &[], SessionEnd::AllTurns, 1),
        (&[0], &[], SessionEnd::LinkFault { turn: 0 }, 0),
        (&[1], &[], SessionEnd::LinkFault { turn: 1 }, 0),
        (&[], &[0], SessionEnd::LinkFault { turn: 1 }, 0),
    ];
    for (receive_fails, send_fails, wanted, sent) in cases {
        let (turns, mut seat) = room_after(&rt, rt.alloc(), &[publish()])?;
        let mut link = link(
            rt.alloc(),
            &[&rtp(1000), &rtp(1002)],
            receive_fails,
            send_fails,
        )?;
        let clock = StepClock::new(0, 20);
        let mut scratch = empty_scratch();
        let end = publisher_session(
            &rt,
            &turns,
            &mut seat,
            1,
            SSRC,
            &mut link,
            &clock,
            2,
            &mut scratch,
        );
        assert_eq!(rt; end, wanted);
        assert_eq!(rt; link.sent().len(), sent);
        for nack in link.sent() {
            assert_eq!(rt; nack.bytes(), NACK.as_slice());
        }
    }
    Ok(())
}

// Each receive and each send of a subscriber's link fails in turn.
#[test]
fn a_subscriber_is_sent_what_waits_for_it(rt: HostRuntime) -> Result<(), Fail> {
    // Each case has the number of turns, the indices of failing receives and sends, the end, and the sequence numbers sent.
    let cases: [(u64, &[u64], &[u64], SessionEnd, &[u16]); 5] = [
        (1, &[], &[], SessionEnd::AllTurns, &[0, 1]),
        (1, &[0], &[], SessionEnd::LinkFault { turn: 0 }, &[]),
        (1, &[], &[0], SessionEnd::LinkFault { turn: 0 }, &[]),
        (1, &[], &[1], SessionEnd::LinkFault { turn: 0 }, &[0]),
        (2, &[1], &[], SessionEnd::LinkFault { turn: 1 }, &[0, 1]),
    ];
    for (limit, receive_fails, send_fails, wanted, sent) in cases {
        let (turns, mut seat) = room_after(
            &rt,
            rt.alloc(),
            &[publish(), join(), packet(7), packet(8)],
        )?;
        let mut link = link(rt.alloc(), &[], receive_fails, send_fails)?;
        let clock = StepClock::new(0, 1);
        let mut scratch = empty_scratch();
        let end = subscriber_session(
            &rt,
            &turns,
            &mut seat,
            1,
            OUT_SSRC,
            &mut link,
            &clock,
            limit,
            &mut scratch,
        );
        assert_eq!(rt; end, wanted);
        assert_eq!(rt; link.sent().len(), sent.len());
        for (datagram, number) in link.sent().iter().zip(sent) {
            assert_eq!(rt; datagram.bytes(), outgoing(*number).as_slice());
        }
    }
    Ok(())
}

// Each receive and the only send of a controller's link fail in turn.
#[test]
fn a_controllers_link_fails(rt: HostRuntime) -> Result<(), Fail> {
    // Each case has the indices of failing receives and sends, the end, and the number of replies sent.
    let cases: [(&[u64], &[u64], SessionEnd, usize); 4] = [
        (&[], &[], SessionEnd::AllTurns, 1),
        (&[0], &[], SessionEnd::LinkFault { turn: 0 }, 0),
        (&[1], &[], SessionEnd::LinkFault { turn: 1 }, 1),
        (&[], &[0], SessionEnd::LinkFault { turn: 0 }, 0),
    ];
    for (receive_fails, send_fails, wanted, sent) in cases {
        let (turns, mut seat) = room_after(&rt, rt.alloc(), &[publish()])?;
        let mut link = link(rt.alloc(), &[b"unpublish 1"], receive_fails, send_fails)?;
        let clock = StepClock::new(0, 1);
        let mut scratch = empty_scratch();
        let end = control_session(&rt, &turns, &mut seat, &mut link, &clock, 2, &mut scratch);
        assert_eq!(rt; end, wanted);
        assert_eq!(rt; link.sent().len(), sent);
        for answer in link.sent() {
            assert_eq!(rt; answer.bytes(), b"ok".as_slice());
        }
    }
    Ok(())
}

// A link whose receives, except the first, advance the clock.
#[derive(Drop)]
struct MovingLink<'a> {
    inner: MemLink,
    clock: &'a StepClock,
    has_received: bool,
}

impl<'a> Link for MovingLink<'a> {
    ghost traffic = { λ s. ⟦<MemLink as Link>⟧.traffic s.inner };

    ghost name = { λ s. ⟦<MemLink as Link>⟧.name s.inner };

    ghost faults = { λ s. ⟦<MemLink as Link>⟧.faults s.inner };

    fn receive(&mut self, buf: &mut PacketBuf) -> Result<bool, Failed> {
        if self.has_received {
            self.clock.now();
        }
        self.has_received = true;
        self.inner.receive(buf)
    }

    fn send(&mut self, packet: &PacketBuf) -> Result<(), Failed> {
        self.inner.send(packet)
    }
}

// The clock is read after each receive. So the two turns are 20 milliseconds apart, and the second turn
// sends a NACK. If the clock were read before each receive, the turns would be 10 milliseconds apart.
#[test]
fn the_clock_is_looked_at_behind_the_receive(rt: HostRuntime) -> Result<(), Fail> {
    let (turns, mut seat) = room_after(&rt, rt.alloc(), &[publish()])?;
    let clock = StepClock::new(0, 10);
    let mut link = MovingLink {
        inner: link(rt.alloc(), &[&rtp(1000), &rtp(1002)], &[], &[])?,
        clock: &clock,
        has_received: false,
    };
    let mut scratch = empty_scratch();
    let end = publisher_session(
        &rt,
        &turns,
        &mut seat,
        1,
        SSRC,
        &mut link,
        &clock,
        2,
        &mut scratch,
    );
    assert_eq!(rt; end, SessionEnd::AllTurns);
    assert!(rt; has_sent(&link.inner, &[&NACK]));
    Ok(())
}
