// Rows of marks, and the frames that are assembled from them.

use frame_assembly::{Assembly, Mark, Outcome};
use packet_slot::PacketSlot;
use std::process::Abort;
use std::test::Fail;

// Packets of frame 2. They differ in whether they start or end the frame, continue an element, or leave one open.
const FIRST: Mark = Mark::Part {
    start: true,
    end: false,
    number: 2,
    continues: false,
    carries: false,
};

const MIDDLE: Mark = Mark::Part {
    start: false,
    end: false,
    number: 2,
    continues: false,
    carries: false,
};

const LAST: Mark = Mark::Part {
    start: false,
    end: true,
    number: 2,
    continues: false,
    carries: false,
};

const ALONE: Mark = Mark::Part {
    start: true,
    end: true,
    number: 2,
    continues: false,
    carries: false,
};

const OPEN_FIRST: Mark = Mark::Part {
    start: true,
    end: false,
    number: 2,
    continues: false,
    carries: true,
};

const JOINED_LAST: Mark = Mark::Part {
    start: false,
    end: true,
    number: 2,
    continues: true,
    carries: false,
};

const OPEN_ALONE: Mark = Mark::Part {
    start: true,
    end: true,
    number: 2,
    continues: false,
    carries: true,
};

const JOINED_FIRST: Mark = Mark::Part {
    start: true,
    end: false,
    number: 2,
    continues: true,
    carries: false,
};

// Packets of frame 3.
const OTHER_ALONE: Mark = Mark::Part {
    start: true,
    end: true,
    number: 3,
    continues: false,
    carries: false,
};

const OTHER_LAST: Mark = Mark::Part {
    start: false,
    end: true,
    number: 3,
    continues: false,
    carries: false,
};

// Pushes each mark with a packet of one byte: the mark's index in the row. `frame` has the bytes of the frame that the last mark completed.
fn check_row(rt: &impl Abort, assembly: &mut Assembly, marks: &[(Mark, Outcome)], frame: &[u8]) {
    let mut place = 0u8;
    for (mark, outcome) in marks {
        assert_eq!(rt; assembly.push(mark, &[place]), *outcome);
        place = place.wrapping_add(1);
    }
    assert_eq!(rt; assembly.count() as usize, frame.len());
    for place in 0..assembly.count() {
        assert_eq!(rt; assembly.packet(place).first(), frame.get(place as usize));
    }
}

// Each row has its marks, the result of each mark, and the first byte of each packet of the frame that the last mark completed.
const ROWS: [(&[(Mark, Outcome)], &[u8]); 20] = [
    // before the first frame
    (
        &[
            (Mark::Pad, Outcome::Pad),
            (Mark::Gone, Outcome::Torn),
            (Mark::Unread, Outcome::Torn),
            (LAST, Outcome::Torn),
        ],
        &[],
    ),
    (&[(Mark::Pad, Outcome::Pad), (ALONE, Outcome::Whole)], &[1]),
    // a packet inside the frame is missing for good
    (
        &[
            (OPEN_FIRST, Outcome::Partial),
            (Mark::Gone, Outcome::Torn),
            (JOINED_LAST, Outcome::Torn),
        ],
        &[],
    ),
    // padding inside a frame, also between two parts that join
    (
        &[
            (FIRST, Outcome::Partial),
            (Mark::Pad, Outcome::Pad),
            (LAST, Outcome::Whole),
        ],
        &[0, 2],
    ),
    (
        &[
            (OPEN_FIRST, Outcome::Partial),
            (Mark::Pad, Outcome::Pad),
            (JOINED_LAST, Outcome::Whole),
        ],
        &[0, 2],
    ),
    // a start drops the frame so far, even if both have the same number
    (
        &[(FIRST, Outcome::Partial), (OTHER_ALONE, Outcome::Whole)],
        &[1],
    ),
    (
        &[
            (FIRST, Outcome::Partial),
            (FIRST, Outcome::Partial),
            (LAST, Outcome::Whole),
        ],
        &[1, 2],
    ),
    (
        &[(OPEN_FIRST, Outcome::Partial), (ALONE, Outcome::Whole)],
        &[1],
    ),
    // frames of one and of three packets
    (&[(ALONE, Outcome::Whole)], &[0]),
    (
        &[
            (FIRST, Outcome::Partial),
            (MIDDLE, Outcome::Partial),
            (LAST, Outcome::Whole),
        ],
        &[0, 1, 2],
    ),
    // another frame number
    (
        &[
            (FIRST, Outcome::Partial),
            (OTHER_LAST, Outcome::Torn),
            (LAST, Outcome::Torn),
        ],
        &[],
    ),
    // broken joins: an open element isn't continued, or a packet continues an element though none is open
    (
        &[
            (OPEN_FIRST, Outcome::Partial),
            (LAST, Outcome::Torn),
            (JOINED_LAST, Outcome::Torn),
        ],
        &[],
    ),
    (
        &[
            (FIRST, Outcome::Partial),
            (JOINED_LAST, Outcome::Torn),
            (LAST, Outcome::Torn),
        ],
        &[],
    ),
    (
        &[
            (OPEN_FIRST, Outcome::Partial),
            (MIDDLE, Outcome::Torn),
            (JOINED_LAST, Outcome::Torn),
        ],
        &[],
    ),
    (
        &[
            (FIRST, Outcome::Partial),
            (MIDDLE, Outcome::Partial),
            (JOINED_LAST, Outcome::Torn),
        ],
        &[],
    ),
    // an element that is open at the frame's end, and a start that continues an element
    (
        &[(OPEN_ALONE, Outcome::Torn), (JOINED_LAST, Outcome::Torn)],
        &[],
    ),
    (
        &[
            (OPEN_FIRST, Outcome::Partial),
            (JOINED_FIRST, Outcome::Torn),
            (LAST, Outcome::Torn),
        ],
        &[],
    ),
    // a packet that couldn't be read
    (
        &[
            (FIRST, Outcome::Partial),
            (Mark::Unread, Outcome::Torn),
            (LAST, Outcome::Torn),
        ],
        &[],
    ),
    // a whole frame ends with the next packet, even if that packet is padding
    (&[(ALONE, Outcome::Whole), (LAST, Outcome::Torn)], &[]),
    (&[(ALONE, Outcome::Whole), (Mark::Pad, Outcome::Pad)], &[]),
];

#[test]
fn marks_make_whole_frames_or_tear_them(rt: HostRuntime) -> Result<(), Fail> {
    let mut assembly = Assembly::new(rt.alloc())?;
    for (marks, frame) in ROWS {
        check_row(&rt, &mut assembly, marks, frame);
    }
    Ok(())
}

#[test]
fn a_frame_has_at_most_512_packets(rt: HostRuntime) -> Result<(), Fail> {
    let mut assembly = Assembly::new(rt.alloc())?;
    assert_eq!(rt; assembly.push(&FIRST, &[]), Outcome::Partial);
    for _ in 0..510 {
        assert_eq!(rt; assembly.push(&MIDDLE, &[7]), Outcome::Partial);
    }
    assert_eq!(rt; assembly.push(&LAST, &[]), Outcome::Whole);
    assert_eq!(rt; assembly.count(), 512);
    assert_eq!(rt; assembly.push(&FIRST, &[]), Outcome::Partial);
    for _ in 0..511 {
        assert_eq!(rt; assembly.push(&MIDDLE, &[]), Outcome::Partial);
    }
    assert_eq!(rt; assembly.push(&MIDDLE, &[]), Outcome::Torn);
    assert_eq!(rt; assembly.push(&LAST, &[]), Outcome::Torn);
    assert_eq!(rt; assembly.count(), 0);
    Ok(())
}

fn check_frame(rt: &impl Abort, assembly: &Assembly, frame: &[&[u8]]) {
    assert_eq!(rt; assembly.count() as usize, frame.len());
    for place in 0..assembly.count() {
        assert_eq!(rt; Some(&assembly.packet(place)), frame.get(place as usize));
    }
}

// The same slot variable passes in all packets: after each push it has the slot that the assembly returned in exchange.
#[test]
fn packets_in_slots_make_the_same_frames_as_their_bytes(rt: HostRuntime) -> Result<(), Fail> {
    let mut bytes = Assembly::new(rt.alloc())?;
    assert_eq!(rt; bytes.push(&FIRST, b"one"), Outcome::Partial);
    assert_eq!(rt; bytes.push(&MIDDLE, b""), Outcome::Partial);
    assert_eq!(rt; bytes.push(&LAST, b"three"), Outcome::Whole);
    check_frame(&rt, &bytes, &[b"one", b"", b"three"]);

    let mut slots = Assembly::new(rt.alloc())?;
    let mut slot = Box::new(rt.alloc(), PacketSlot::new())?;
    slot.fill(b"one");
    assert_eq!(rt; slots.push_slot(&FIRST, &mut slot), Outcome::Partial);
    slot.fill(b"");
    assert_eq!(rt; slots.push_slot(&MIDDLE, &mut slot), Outcome::Partial);
    slot.fill(b"three");
    assert_eq!(rt; slots.push_slot(&LAST, &mut slot), Outcome::Whole);
    check_frame(&rt, &slots, &[b"one", b"", b"three"]);

    slot.fill(b"4");
    assert_eq!(rt; slots.push_slot(&OPEN_FIRST, &mut slot), Outcome::Partial);
    assert_eq!(rt; slots.push(&JOINED_LAST, b"five"), Outcome::Whole);
    check_frame(&rt, &slots, &[b"4", b"five"]);
    Ok(())
}

#[test]
fn padding_and_torn_packets_in_slots_are_in_no_frame(rt: HostRuntime) -> Result<(), Fail> {
    let mut assembly = Assembly::new(rt.alloc())?;
    let mut slot = Box::new(rt.alloc(), PacketSlot::new())?;
    slot.fill(b"first");
    assert_eq!(rt; assembly.push_slot(&FIRST, &mut slot), Outcome::Partial);
    slot.fill(b"padding");
    assert_eq!(rt; assembly.push_slot(&Mark::Pad, &mut slot), Outcome::Pad);
    slot.fill(b"last");
    assert_eq!(rt; assembly.push_slot(&LAST, &mut slot), Outcome::Whole);
    check_frame(&rt, &assembly, &[b"first", b"last"]);
    slot.fill(b"unread");
    assert_eq!(rt; assembly.push_slot(&Mark::Unread, &mut slot), Outcome::Torn);
    check_frame(&rt, &assembly, &[]);
    slot.fill(b"behind");
    assert_eq!(rt; assembly.push_slot(&LAST, &mut slot), Outcome::Torn);
    check_frame(&rt, &assembly, &[]);
    slot.fill(b"alone");
    assert_eq!(rt; assembly.push_slot(&ALONE, &mut slot), Outcome::Whole);
    check_frame(&rt, &assembly, &[b"alone"]);
    Ok(())
}

#[test]
fn the_513th_slot_tears_a_frame(rt: HostRuntime) -> Result<(), Fail> {
    let mut assembly = Assembly::new(rt.alloc())?;
    let mut slot = Box::new(rt.alloc(), PacketSlot::new())?;
    slot.fill(b"first");
    assert_eq!(rt; assembly.push_slot(&FIRST, &mut slot), Outcome::Partial);
    for _ in 0..511 {
        slot.fill(b"middle");
        assert_eq!(rt; assembly.push_slot(&MIDDLE, &mut slot), Outcome::Partial);
    }
    slot.fill(b"last");
    assert_eq!(rt; assembly.push_slot(&LAST, &mut slot), Outcome::Torn);
    check_frame(&rt, &assembly, &[]);
    slot.fill(b"alone");
    assert_eq!(rt; assembly.push_slot(&ALONE, &mut slot), Outcome::Whole);
    check_frame(&rt, &assembly, &[b"alone"]);
    Ok(())
}
