// Packets, and what `show` returns for them with the structure that is in force.

mod remasking;

use dd_descriptor::NewestDescriptor;
use packet_format::{PayloadFlags, Shown, begins_epoch, show};
use std::test::Fail;

// Packets with one descriptor each, in the one-byte form, with id 4: a key descriptor of one target, and a frame of that structure's template 1.
const KEY: [u8; 31] = [
    0x90, 0xe0, 0x03, 0xe8, 0, 0, 0, 0, 0x11, 0x11, 0x11, 0x11, 0xbe, 0xde, 0x00, 0x03, 0x48, 0xc0,
    0x00, 0x01, 0x80, 0x00, 0x3a, 0x41, 0x01, 0x00, 0x00, 0x00, 0x18, 0x30, 0x00,
];

const PART: [u8; 23] = [
    0x90, 0xe0, 0x03, 0xe9, 0, 0, 0, 0, 0x11, 0x11, 0x11, 0x11, 0xbe, 0xde, 0x00, 0x01, 0x42, 0xc1,
    0x00, 0x02, 0x50, 0x30, 0x00,
];

// A packet that ends a frame and doesn't start it. Its descriptor carries a structure whose template 1 is required.
const OTHER: [u8; 31] = [
    0x90, 0xe0, 0x03, 0xea, 0, 0, 0, 0, 0x11, 0x11, 0x11, 0x11, 0xbe, 0xde, 0x00, 0x03, 0x48, 0x40,
    0x00, 0x02, 0x80, 0x00, 0x3b, 0x41, 0x01, 0x00, 0x00, 0x00, 0x10, 0x30, 0x00,
];

// An element with id 15 before the descriptor ends the processing of elements.
const ENDED: [u8; 27] = [
    0x90, 0xe0, 0x03, 0xeb, 0, 0, 0, 0, 0x11, 0x11, 0x11, 0x11, 0xbe, 0xde, 0x00, 0x02, 0xf0, 0x00,
    0x42, 0xc1, 0x00, 0x02, 0x00, 0x00, 0x10, 0x30, 0x00,
];

// A payload without an OBU element, and an empty payload.
const NO_ELEMENT: [u8; 21] = [
    0x90, 0xe0, 0x03, 0xec, 0, 0, 0, 0, 0x11, 0x11, 0x11, 0x11, 0xbe, 0xde, 0x00, 0x01, 0x42, 0xc1,
    0x00, 0x02, 0x00,
];

const NO_PAYLOAD: [u8; 20] = [
    0x90, 0xe0, 0x03, 0xed, 0, 0, 0, 0, 0x11, 0x11, 0x11, 0x11, 0xbe, 0xde, 0x00, 0x01, 0x42, 0xc1,
    0x00, 0x02,
];

fn elements(continues: bool, carries: bool) -> Shown {
    Shown::Shows(PayloadFlags::Elements { continues, carries })
}

#[test]
fn packets_show_what_their_bytes_say(rt: HostRuntime) -> Result<(), Fail> {
    let key = rtp_packet::read(&KEY)?;
    let mut first = NewestDescriptor::new();
    assert_eq!(rt; show(&key, 4, None, &mut first), elements(false, false));
    assert!(rt; first.get().ref_count <= 16);
    assert!(rt; begins_epoch(first.get()));
    let part = rtp_packet::read(&PART)?;
    let mut newest = NewestDescriptor::new();
    assert_eq!(rt;
        show(&part, 4, first.get().structure.as_ref(), &mut newest),
        elements(false, true)
    );
    let force = first.get().structure.as_ref();
    let rows: [(&[u8], u8, Shown); 7] = [
        (&KEY, 4, elements(false, false)),
        (&KEY, 3, Shown::Unread),
        (&PART, 4, elements(false, true)),
        (&OTHER, 4, Shown::Unread),
        (&ENDED, 4, Shown::Unread),
        (&NO_ELEMENT, 4, Shown::Shows(PayloadFlags::Broken)),
        (&NO_PAYLOAD, 4, Shown::Shows(PayloadFlags::Empty)),
    ];
    for (bytes, id, shown) in rows {
        let packet = rtp_packet::read(bytes)?;
        assert_eq!(rt; show(&packet, id, force, &mut newest), shown, "id {id}");
    }
    assert_eq!(rt; show(&part, 4, None, &mut newest), Shown::LacksStructure);
    Ok(())
}
