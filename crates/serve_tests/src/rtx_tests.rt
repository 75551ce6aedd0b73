//! Tests of sessions with a retransmission stream, over links in memory.

use crate::session_tests::{has_sent, link, room_after, rtp};
use crate::shared_room_tests::{empty_scratch, join, packet, publish};
use rtx_stream::Rtx;
use sfu_base::StepClock;
use sfu_serve::{SessionEnd, rtx_session};
use std::test::Fail;

// The retransmission stream: SSRC 33333333 and payload type 97.
const RTX: Rtx = Rtx {
    ssrc: 0x3333_3333,
    payload_type: 97,
};

// A NACK for the packets 1 and 0, in this order, with the SSRC of the sent media (RFC 4585, section 6.2.1).
const BOTH: [u8; 20] = [
    0x81, 0xcd, 0, 4, 0, 0, 0, 9, 0x22, 0x22, 0x22, 0x22, 0, 1, 0, 0, 0, 0, 0, 0,
];

// A NACK for packet 0 with the SSRC of the retransmission stream.
const OTHER: [u8; 16] = [
    0x81, 0xcd, 0, 3, 0, 0, 0, 9, 0x33, 0x33, 0x33, 0x33, 0, 0, 0, 0,
];

// A NACK for packet 5, which was never sent, and for packet 1.
const NEVER_SENT: [u8; 20] = [
    0x81, 0xcd, 0, 4, 0, 0, 0, 9, 0x22, 0x22, 0x22, 0x22, 0, 5, 0, 0, 0, 1, 0, 0,
];

// The packets 0 and 1 as they are first sent (RFC 3550, section 5.1).
const TAKEN: [[u8; 14]; 2] = [
    [
        0x80, 0x60, 0, 0, 0, 0, 0, 0, 0x22, 0x22, 0x22, 0x22, 0xaa, 0xbb,
    ],
    [
        0x80, 0x60, 0, 1, 0, 0, 0, 0, 0x22, 0x22, 0x22, 0x22, 0xaa, 0xbb,
    ],
];

// The retransmissions of packets 1, 0 and 1, with sequence numbers 0, 1 and 2 on their stream (RFC 4588, section 4).
const RESENT: [[u8; 16]; 3] = [
    [
        0x80, 0x61, 0, 0, 0, 0, 0, 0, 0x33, 0x33, 0x33, 0x33, 0, 1, 0xaa, 0xbb,
    ],
    [
        0x80, 0x61, 0, 1, 0, 0, 0, 0, 0x33, 0x33, 0x33, 0x33, 0, 0, 0xaa, 0xbb,
    ],
    [
        0x80, 0x61, 0, 2, 0, 0, 0, 0, 0x33, 0x33, 0x33, 0x33, 0, 1, 0xaa, 0xbb,
    ],
];

// Two packets are taken, and retransmissions of both are requested. Then one NACK has the wrong SSRC, and
// one names a packet that was never sent: neither uses up a sequence number. Each send fails in turn.
#[test]
fn resent_packets_have_numbers_of_their_own(rt: HostRuntime) -> Result<(), Fail> {
    let [first, second] = &TAKEN;
    let [once, twice, again] = &RESENT;
    let all: [&[u8]; 5] = [first, second, once, twice, again];
    // Each case has the indices of failing sends, the end, and the number of datagrams sent.
    let cases: [(&[u64], SessionEnd, usize); 6] = [
        (&[], SessionEnd::AllTurns, 5),
        (&[0], SessionEnd::LinkFault { turn: 0 }, 0),
        (&[1], SessionEnd::LinkFault { turn: 0 }, 1),
        (&[2], SessionEnd::LinkFault { turn: 1 }, 2),
        (&[3], SessionEnd::LinkFault { turn: 1 }, 3),
        (&[4], SessionEnd::LinkFault { turn: 3 }, 4),
    ];
    for (send_fails, wanted, sent) in cases {
        let (turns, mut seat) = room_after(
            &rt,
            rt.alloc(),
            &[publish(), join(), packet(7), packet(8)],
        )?;
        let brought = rtp(0);
        let mut link = link(
            rt.alloc(),
            &[&brought, &BOTH, &OTHER, &NEVER_SENT],
            &[],
            send_fails,
        )?;
        let clock = StepClock::new(0, 1);
        let mut scratch = empty_scratch();
        let end = rtx_session(
            &rt,
            &turns,
            &mut seat,
            1,
            0x2222_2222,
            &RTX,
            &mut link,
            &clock,
            4,
            &mut scratch,
        );
        assert_eq!(rt; end, wanted);
        assert!(rt; sent <= 5);
        assert!(rt; has_sent(&link, &all[..sent]));
    }
    Ok(())
}
