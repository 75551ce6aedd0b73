// Rows of packets, and the result of a receiver for the last of them.

ghost use Rattle.std.specs.Prelude.{◌≤◌};

use crate::{Complaint, Receiver};
use std::process::Abort;
use std::test::Fail;

// ---- packets

// A key frame and the next one, as they are sent to a subscriber.
const KEY_FRAME: [u8; 31] = [
    0x90, 0xe0, 0xff, 0xff, 0, 0, 0, 0, 0x22, 0x22, 0x22, 0x22, 0xbe, 0xde, 0x00, 0x03, 0x48, 0xc0,
    0x00, 0x01, 0x80, 0x00, 0x3a, 0x41, 0x01, 0x00, 0x00, 0x00, 0x18, 0x30, 0x00,
];

const NEXT_FRAME: [u8; 23] = [
    0x90, 0xe0, 0x00, 0x00, 0, 0, 0, 0, 0x22, 0x22, 0x22, 0x22, 0xbe, 0xde, 0x00, 0x01, 0x42, 0xc1,
    0x00, 0x02, 0x10, 0x30, 0x00,
];

#[test]
fn a_repeated_packet_is_complained_of_for_good(rt: HostRuntime) -> Result<(), Fail> {
    let mut receiver = Receiver::new(rt.alloc(), 4)?;
    assert_eq!(rt; receiver.feed(&KEY_FRAME), Ok(()));
    assert_eq!(rt; receiver.feed(&NEXT_FRAME), Ok(()));
    assert_eq!(rt; (receiver.packets(), receiver.frames()), (2, 2));
    let repeated = Complaint::Sequence { had: 0, got: 0 };
    assert_eq!(rt; receiver.feed(&NEXT_FRAME), Err(repeated));
    assert_eq!(rt; receiver.feed(&KEY_FRAME), Err(repeated));
    assert_eq!(rt; (receiver.packets(), receiver.frames()), (2, 2));
    let mut late = Receiver::new(rt.alloc(), 4)?;
    assert_eq!(rt; late.feed(&NEXT_FRAME), Err(Complaint::NoStructure));
    Ok(())
}

const SOURCE: u32 = 0x1111_1111;

// A packet with a descriptor in the one-byte form, with id 4.
#[derive(Drop)]
struct Packet {
    bytes: [u8; 48],
    len: usize,
    ghost few: { len ≤ 48 },
}

// The packet with this SSRC, sequence number, descriptor and payload, or `None` if they are too long for it.
fn packet_with(ssrc: u32, seq: u16, descriptor: &[u8], payload: &[u8]) -> Option<Packet> {
    if descriptor.is_empty() || descriptor.len() > 16 || payload.len() > 8 {
        return None;
    }
    let words = descriptor.len() / 4 + 1;
    let mut bytes = [0; 48];
    bytes[0] = 0x90;
    bytes[1] = 0x60;
    bytes[2..4].copy_from_slice(&seq.to_be_bytes());
    bytes[8..12].copy_from_slice(&ssrc.to_be_bytes());
    bytes[12] = 0xbe;
    bytes[13] = 0xde;
    bytes[15] = words as u8;
    bytes[16] = 0x3f + descriptor.len() as u8;
    bytes[17..17 + descriptor.len()].copy_from_slice(descriptor);
    let len = 16 + 4 * words + payload.len();
    bytes[16 + 4 * words..len].copy_from_slice(payload);
    Some(Packet { bytes, len })
}

// A sequence number, a descriptor and a payload.
type Step<'a> = (u16, &'a [u8], &'a [u8]);

// Feeds the packet of this step to the receiver, and returns the result, or `None` if the packet is too long.
fn answer_to(receiver: &mut Receiver, step: Step<'_>) -> Option<Result<(), Complaint>> {
    let (seq, descriptor, payload) = step;
    let Packet { bytes, len } = packet_with(SOURCE, seq, descriptor, payload)?;
    Some(receiver.feed(&bytes[..len]))
}

// Key descriptors with one target and one chain. Template 1 refers to the previous frame.
const KEY_1: [u8; 9] = [0xc0, 0x00, 0x01, 0x80, 0x00, 0x3a, 0x41, 0x01, 0x00];

const KEY_2: [u8; 9] = [0xc0, 0x00, 0x02, 0x80, 0x00, 0x3a, 0x41, 0x01, 0x00];

const KEY_3: [u8; 9] = [0xc0, 0x00, 0x03, 0x80, 0x00, 0x3a, 0x41, 0x01, 0x00];

const KEY_5: [u8; 9] = [0xc0, 0x00, 0x05, 0x80, 0x00, 0x3a, 0x41, 0x01, 0x00];

const KEY_65535: [u8; 9] = [0xc0, 0xff, 0xff, 0x80, 0x00, 0x3a, 0x41, 0x01, 0x00];

// Descriptors of the first packet of key frame 1, and of the last packet of frame 2, which carries another structure.
const KEY_START: [u8; 9] = [0x80, 0x00, 0x01, 0x80, 0x00, 0x3a, 0x41, 0x01, 0x00];

const OTHER: [u8; 9] = [0x41, 0x00, 0x02, 0x80, 0x00, 0x3b, 0x41, 0x01, 0x00];

// Descriptors of frames in one packet, by template 1. First come frames 2, 3, 4, 6, 7 and 0, then frames 4 and 7 that refer two frames back.
// Then come frames 3 and 6 without references, and frames 4097 and 4098 that refer 4,096 frames back.
const FRAME_2: [u8; 3] = [0xc1, 0x00, 0x02];

const FRAME_3: [u8; 3] = [0xc1, 0x00, 0x03];

const FRAME_4: [u8; 3] = [0xc1, 0x00, 0x04];

const FRAME_6: [u8; 3] = [0xc1, 0x00, 0x06];

const FRAME_7: [u8; 3] = [0xc1, 0x00, 0x07];

const FRAME_0: [u8; 3] = [0xc1, 0x00, 0x00];

const FRAME_4_TWO_BACK: [u8; 5] = [0xc1, 0x00, 0x04, 0x12, 0x20];

const FRAME_7_TWO_BACK: [u8; 5] = [0xc1, 0x00, 0x07, 0x12, 0x20];

const FRAME_3_ALONE: [u8; 4] = [0xc1, 0x00, 0x03, 0x10];

const FRAME_6_ALONE: [u8; 4] = [0xc1, 0x00, 0x06, 0x10];

const FRAME_4097_FAR_BACK: [u8; 6] = [0xc1, 0x10, 0x01, 0x17, 0xff, 0xe0];

const FRAME_4098_FAR_BACK: [u8; 6] = [0xc1, 0x10, 0x02, 0x17, 0xff, 0xe0];

// Descriptors of the first, a middle and the last packet of frame 2, and of the last packet of frame 3.
const START_2: [u8; 3] = [0x81, 0x00, 0x02];

const MIDDLE_2: [u8; 3] = [0x01, 0x00, 0x02];

const END_2: [u8; 3] = [0x41, 0x00, 0x02];

const END_3: [u8; 3] = [0x41, 0x00, 0x03];

// Payloads of one element. The first has a complete element, and in the second the element continues in the next packet. In the third the
// element began in an earlier packet and continues in the next one, and in the fourth it ends here.
const CLOSED: [u8; 3] = [0x10, 0x30, 0x00];

const CARRIES: [u8; 3] = [0x50, 0x30, 0x00];

const BOTH: [u8; 2] = [0xd0, 0x00];

const CONTINUES: [u8; 2] = [0x90, 0x00];

// A payload whose element lacks its length.
const BROKEN: [u8; 1] = [0x20];

// ---- rows

// Checks that all steps but the last are accepted, and that the result of the last step is `last`. `counts` must be the numbers of accepted
// packets and frames. Also checks that after a complaint further packets get the same complaint and change nothing.
fn answers_last(
    rt: &impl Abort,
    receiver: &mut Receiver,
    steps: &[Step<'_>],
    last: Result<(), Complaint>,
    counts: (u64, u64),
) {
    for (place, step) in steps.iter().enumerate() {
        let answer = if place + 1 < steps.len() {
            Ok(())
        } else {
            last
        };
        assert_eq!(rt; answer_to(receiver, *step), Some(answer), "packet {place}");
    }
    assert_eq!(rt; (receiver.packets(), receiver.frames()), counts);
    if last.is_err() {
        assert_eq!(rt; answer_to(receiver, (0, &KEY_1, &CLOSED)), Some(last));
        assert_eq!(rt; receiver.feed(&[]), last);
        assert_eq!(rt; (receiver.packets(), receiver.frames()), counts);
    }
}

#[test]
fn whole_frames_with_all_references_are_accepted(rt: HostRuntime) -> Result<(), Fail> {
    let rows: [(&[Step<'_>], (u64, u64)); 11] = [
        (&[], (0, 0)),
        // sequence numbers wrap, and so do frame numbers
        (&[(65535, &KEY_1, &CLOSED), (0, &FRAME_2, &CLOSED)], (2, 2)),
        (&[(0, &KEY_65535, &CLOSED), (1, &FRAME_0, &CLOSED)], (2, 2)),
        // a frame in three packets, whose elements join, and a frame that isn't finished
        (
            &[
                (0, &KEY_1, &CLOSED),
                (1, &START_2, &CARRIES),
                (2, &MIDDLE_2, &BOTH),
                (3, &END_2, &CONTINUES),
            ],
            (4, 2),
        ),
        (
            &[
                (0, &KEY_1, &CLOSED),
                (1, &START_2, &CARRIES),
                (2, &MIDDLE_2, &BOTH),
            ],
            (3, 1),
        ),
        // a frame that refers two frames back, and one that refers to a second key frame
        (
            &[
                (0, &KEY_2, &CLOSED),
                (1, &FRAME_3, &CLOSED),
                (2, &FRAME_4_TWO_BACK, &CLOSED),
            ],
            (3, 3),
        ),
        (
            &[
                (0, &KEY_1, &CLOSED),
                (1, &FRAME_2, &CLOSED),
                (2, &KEY_3, &CLOSED),
                (3, &FRAME_4, &CLOSED),
            ],
            (4, 4),
        ),
        // a second key frame with the same number, and one with a lower number
        (
            &[
                (0, &KEY_3, &CLOSED),
                (1, &KEY_3, &CLOSED),
                (2, &FRAME_4, &CLOSED),
            ],
            (3, 3),
        ),
        (
            &[
                (0, &KEY_3, &CLOSED),
                (1, &KEY_1, &CLOSED),
                (2, &FRAME_2, &CLOSED),
            ],
            (3, 3),
        ),
        // a frame number that falls, and the frame after it
        (
            &[
                (0, &KEY_5, &CLOSED),
                (1, &FRAME_3_ALONE, &CLOSED),
                (2, &FRAME_4, &CLOSED),
            ],
            (3, 3),
        ),
        // a reference at the greatest distance
        (
            &[(0, &KEY_1, &CLOSED), (1, &FRAME_4097_FAR_BACK, &CLOSED)],
            (2, 2),
        ),
    ];
    for (steps, counts) in rows {
        let mut receiver = Receiver::new(rt.alloc(), 4)?;
        answers_last(&rt, &mut receiver, steps, Ok(()), counts);
    }
    Ok(())
}

#[test]
fn each_complaint_is_answered_for_good(rt: HostRuntime) -> Result<(), Fail> {
    let numbers = |had: u16, got: u16| Complaint::Sequence { had, got };
    let missing = |frame: u16, fdiff: u16| Complaint::MissingReference { frame, fdiff };
    let rows: [(&[Step<'_>], Complaint, (u64, u64)); 28] = [
        // a sequence number that is repeated, that skips a number, or that is lower
        (
            &[(65535, &KEY_1, &CLOSED), (65535, &KEY_1, &CLOSED)],
            numbers(65535, 65535),
            (1, 1),
        ),
        (
            &[(0, &KEY_1, &CLOSED), (2, &FRAME_2, &CLOSED)],
            numbers(0, 2),
            (1, 1),
        ),
        (
            &[(0, &KEY_1, &CLOSED), (65535, &FRAME_2, &CLOSED)],
            numbers(0, 65535),
            (1, 1),
        ),
        // no structure has been received yet, whatever the payload is
        (&[(0, &FRAME_2, &CLOSED)], Complaint::NoStructure, (0, 0)),
        (&[(0, &FRAME_2, &[])], Complaint::NoStructure, (0, 0)),
        // the payload, the descriptor or the structure can't be read
        (&[(0, &KEY_1, &[])], Complaint::Unread, (0, 0)),
        (&[(0, &KEY_1, &BROKEN)], Complaint::Unread, (0, 0)),
        (&[(0, &[0xc1, 0x00], &CLOSED)], Complaint::Unread, (0, 0)),
        (
            &[(0, &KEY_1, &CLOSED), (1, &OTHER, &CLOSED)],
            Complaint::Unread,
            (1, 1),
        ),
        // a start bit in an unfinished frame, and a continuation without a start
        (
            &[(0, &KEY_START, &CLOSED), (1, &KEY_2, &CLOSED)],
            Complaint::NotWhole,
            (1, 0),
        ),
        (
            &[
                (0, &KEY_1, &CLOSED),
                (1, &START_2, &CLOSED),
                (2, &START_2, &CLOSED),
            ],
            Complaint::NotWhole,
            (2, 1),
        ),
        (
            &[(0, &KEY_1, &CLOSED), (1, &MIDDLE_2, &CLOSED)],
            Complaint::NotWhole,
            (1, 1),
        ),
        (
            &[(0, &KEY_1, &CLOSED), (1, &END_2, &CLOSED)],
            Complaint::NotWhole,
            (1, 1),
        ),
        // another frame number
        (
            &[
                (0, &KEY_1, &CLOSED),
                (1, &START_2, &CLOSED),
                (2, &END_3, &CLOSED),
            ],
            Complaint::NotWhole,
            (2, 1),
        ),
        // elements that don't join, at the first packet of a frame, between two packets, and at the last packet
        (&[(0, &KEY_1, &CONTINUES)], Complaint::NotWhole, (0, 0)),
        (
            &[
                (0, &KEY_1, &CLOSED),
                (1, &START_2, &CARRIES),
                (2, &END_2, &CLOSED),
            ],
            Complaint::NotWhole,
            (2, 1),
        ),
        (
            &[
                (0, &KEY_1, &CLOSED),
                (1, &START_2, &CLOSED),
                (2, &END_2, &CONTINUES),
            ],
            Complaint::NotWhole,
            (2, 1),
        ),
        (
            &[(0, &KEY_1, &CLOSED), (1, &FRAME_2, &CARRIES)],
            Complaint::NotWhole,
            (1, 1),
        ),
        (
            &[
                (0, &KEY_1, &CLOSED),
                (1, &START_2, &CARRIES),
                (2, &END_2, &BOTH),
            ],
            Complaint::NotWhole,
            (2, 1),
        ),
        // a reference to a frame that wasn't received, or not since the last key frame, or not since a frame number that didn't rise
        (
            &[(0, &KEY_1, &CLOSED), (1, &FRAME_3, &CLOSED)],
            missing(3, 1),
            (1, 1),
        ),
        (
            &[(0, &KEY_3, &CLOSED), (1, &FRAME_4_TWO_BACK, &CLOSED)],
            missing(4, 2),
            (1, 1),
        ),
        (
            &[
                (0, &KEY_1, &CLOSED),
                (1, &FRAME_2, &CLOSED),
                (2, &KEY_3, &CLOSED),
                (3, &FRAME_4_TWO_BACK, &CLOSED),
            ],
            missing(4, 2),
            (3, 3),
        ),
        (
            &[
                (0, &KEY_5, &CLOSED),
                (1, &FRAME_6, &CLOSED),
                (2, &FRAME_6_ALONE, &CLOSED),
                (3, &FRAME_7_TWO_BACK, &CLOSED),
            ],
            missing(7, 2),
            (3, 3),
        ),
        (
            &[
                (0, &KEY_5, &CLOSED),
                (1, &FRAME_3_ALONE, &CLOSED),
                (2, &FRAME_6, &CLOSED),
            ],
            missing(6, 1),
            (2, 2),
        ),
        (
            &[
                (0, &KEY_5, &CLOSED),
                (1, &FRAME_6, &CLOSED),
                (2, &FRAME_6, &CLOSED),
            ],
            missing(6, 1),
            (2, 2),
        ),
        (
            &[(0, &KEY_1, &CLOSED), (1, &FRAME_0, &CLOSED)],
            missing(0, 1),
            (1, 1),
        ),
        (
            &[(0, &KEY_1, &CLOSED), (1, &FRAME_4098_FAR_BACK, &CLOSED)],
            missing(4098, 4096),
            (1, 1),
        ),
        // a frame that isn't complete: there is no complaint about its missing reference
        (
            &[(0, &KEY_1, &CLOSED), (1, &FRAME_7, &CARRIES)],
            Complaint::NotWhole,
            (1, 1),
        ),
    ];
    for (steps, complaint, counts) in rows {
        let mut receiver = Receiver::new(rt.alloc(), 4)?;
        answers_last(&rt, &mut receiver, steps, Err(complaint), counts);
    }
    Ok(())
}

#[test]
fn the_source_and_the_id_are_those_of_the_first_packet(rt: HostRuntime) -> Result<(), Fail> {
    let other = Complaint::OtherSource {
        had: SOURCE,
        got: 0x2222_2222,
    };
    let mut receiver = Receiver::new(rt.alloc(), 4)?;
    assert_eq!(rt;
        answer_to(&mut receiver, (7, &KEY_1, &CLOSED)),
        Some(Ok(()))
    );
    // the SSRC is checked before the sequence number
    let stranger = packet_with(0x2222_2222, 9, &FRAME_2, &CLOSED).ok_or("too long")?;
    assert_eq!(rt; receiver.feed(&stranger.bytes[..stranger.len]), Err(other));
    assert_eq!(rt;
        answer_to(&mut receiver, (8, &FRAME_2, &CLOSED)),
        Some(Err(other))
    );
    // no header extension element has this id
    let mut receiver = Receiver::new(rt.alloc(), 5)?;
    assert_eq!(rt;
        answer_to(&mut receiver, (7, &KEY_1, &CLOSED)),
        Some(Err(Complaint::Unread))
    );
    // not RTP
    let mut receiver = Receiver::new(rt.alloc(), 4)?;
    assert_eq!(rt; receiver.feed(&[0x90, 0x60, 0, 0]), Err(Complaint::Unread));
    assert_eq!(rt; (receiver.packets(), receiver.frames()), (0, 0));
    Ok(())
}

#[test]
fn a_frame_has_at_most_512_packets(rt: HostRuntime) -> Result<(), Fail> {
    for (packets, end) in [(512, Ok(())), (513, Err(Complaint::NotWhole))] {
        let mut receiver = Receiver::new(rt.alloc(), 4)?;
        assert_eq!(rt;
            answer_to(&mut receiver, (0, &KEY_1, &CLOSED)),
            Some(Ok(()))
        );
        assert_eq!(rt;
            answer_to(&mut receiver, (1, &START_2, &CARRIES)),
            Some(Ok(()))
        );
        for seq in 2..packets {
            assert_eq!(rt;
                answer_to(&mut receiver, (seq, &MIDDLE_2, &BOTH)),
                Some(Ok(()))
            );
        }
        assert_eq!(rt;
            answer_to(&mut receiver, (packets, &END_2, &CONTINUES)),
            Some(end)
        );
    }
    Ok(())
}

// The descriptor of a frame in one packet, by template 1, with this number. `frame_alone` is the same without a reference.
fn frame(number: u16) -> [u8; 3] {
    let [high, low] = number.to_be_bytes();
    [0xc1, high, low]
}

fn frame_alone(number: u16) -> [u8; 4] {
    let [high, low] = number.to_be_bytes();
    [0xc1, high, low, 0x10]
}

#[test]
fn frame_numbers_go_on_however_far_apart_they_lie(rt: HostRuntime) -> Result<(), Fail> {
    // Frames 1 to 512, then 70,001 without a reference, and 70,002.
    let mut receiver = Receiver::new(rt.alloc(), 4)?;
    assert_eq!(rt;
        answer_to(&mut receiver, (0, &KEY_1, &CLOSED)),
        Some(Ok(()))
    );
    for number in 2..513 {
        assert_eq!(rt;
            answer_to(&mut receiver, (number - 1, &frame(number), &CLOSED)),
            Some(Ok(()))
        );
    }
    assert_eq!(rt;
        answer_to(&mut receiver, (512, &[0xc1, 0x11, 0x71, 0x10], &CLOSED)),
        Some(Ok(()))
    );
    assert_eq!(rt;
        answer_to(&mut receiver, (513, &[0xc1, 0x11, 0x72], &CLOSED)),
        Some(Ok(()))
    );
    assert_eq!(rt; (receiver.packets(), receiver.frames()), (514, 514));

    // 1,200 frames, each with a number 32,767 above the one before, which is the farthest that counts as above. Each of these frames is followed by
    // a frame that refers to it.
    let mut receiver = Receiver::new(rt.alloc(), 4)?;
    assert_eq!(rt;
        answer_to(&mut receiver, (0, &KEY_1, &CLOSED)),
        Some(Ok(()))
    );
    let mut number: u16 = 1;
    let mut seq: u16 = 0;
    for _ in 0..1200 {
        for (ahead, refers) in [(32767, false), (1, true)] {
            number = number.wrapping_add(ahead);
            seq = seq.wrapping_add(1);
            let answer = if refers {
                answer_to(&mut receiver, (seq, &frame(number), &CLOSED))
            } else {
                answer_to(&mut receiver, (seq, &frame_alone(number), &CLOSED))
            };
            assert_eq!(rt; answer, Some(Ok(())), "frame {number}");
        }
    }
    assert_eq!(rt; (receiver.packets(), receiver.frames()), (2401, 2401));
    let lost = Complaint::MissingReference {
        frame: number.wrapping_add(2),
        fdiff: 1,
    };
    let next = frame(number.wrapping_add(2));
    assert_eq!(rt;
        answer_to(&mut receiver, (seq.wrapping_add(1), &next, &CLOSED)),
        Some(Err(lost))
    );
    Ok(())
}
