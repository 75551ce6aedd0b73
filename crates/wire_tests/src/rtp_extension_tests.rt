// Blocks laid out by hand from RFC 8285, sections 4.2 and 4.3.

use rtp_extension::{Element, elements, find, reblock, write_one, write_two};
use sfu_base::{NoFit, PacketBuf};
use std::process::Abort;

// Checks that the block has exactly these elements, in this order.
fn check_elements(rt: &impl Abort, profile: u16, block: &[u8], wanted: &[(u8, &[u8])]) {
    let mut left = elements(profile, block);
    for (id, value) in wanted {
        let id = *id;
        let value = *value;
        assert_eq!(rt; left.next(), Some(Element { id, value }));
    }
    assert_eq!(rt; left.next(), None);
}

#[test]
fn each_block_has_its_elements(rt: HostRuntime) {
    let rows: [(u16, &[u8], &[(u8, &[u8])]); 17] = [
        // padding, then id 15, which ends processing
        (
            0xBEDE,
            &[0x10, 0xAA, 0, 0xF0, 0x42, 0xC1, 0, 2],
            &[(1, &[0xAA])],
        ),
        // the two-byte form, with an empty value and padding after it
        (
            0x1000,
            &[1, 2, 0xAA, 0xBB, 0, 4, 0, 0],
            &[(1, &[0xAA, 0xBB]), (4, &[])],
        ),
        // a value that would reach past the end of the block
        (0xBEDE, &[0x44, 0xAA, 0, 0], &[]),
        // an empty block, and padding alone
        (0xBEDE, &[], &[]),
        (0x1000, &[0, 0, 0, 0], &[]),
        // values of 1 and 16 bytes that end with the block
        (0xBEDE, &[0, 0, 0xE0, 7], &[(14, &[7])]),
        (
            0xBEDE,
            &[0x2F, 1, 2, 3, 4, 5, 6, 7, 8, 9, 10, 11, 12, 13, 14, 15, 16],
            &[(2, &[1, 2, 3, 4, 5, 6, 7, 8, 9, 10, 11, 12, 13, 14, 15, 16])],
        ),
        // one byte of the value is missing
        (0xBEDE, &[0x10, 9, 0x11, 8], &[(1, &[9])]),
        (0x1000, &[3, 1, 9, 3, 2, 8], &[(3, &[9])]),
        // id 0 with a length ends the one-byte form
        (0xBEDE, &[0x10, 9, 0x01, 8, 8, 0x20, 7], &[(1, &[9])]),
        // id 15 is an ordinary id in the two-byte form
        (0x1000, &[15, 1, 9, 255, 0], &[(15, &[9]), (255, &[])]),
        // an id whose length byte is missing
        (0x1000, &[1, 0, 5], &[(1, &[])]),
        // the profiles of the two-byte form, and others
        (0x100F, &[1, 1, 9, 0], &[(1, &[9])]),
        (0x1010, &[1, 1, 9, 0], &[]),
        (0x0FFF, &[1, 1, 9, 0], &[]),
        (0xBEDF, &[0x10, 9, 0, 0], &[]),
        // an id that occurs twice
        (0xBEDE, &[0x30, 1, 0x30, 2], &[(3, &[1]), (3, &[2])]),
    ];
    for (profile, block, wanted) in rows {
        check_elements(&rt, profile, block, wanted);
    }
}

#[test]
fn the_first_element_with_the_id_is_found(rt: HostRuntime) {
    let block = [0x30, 1, 0x50, 9, 0x30, 2, 0xF0, 0x60, 7];
    let found = find(0xBEDE, &block, 3).unwrap_or(&[]);
    assert_eq!(rt; found, [1].as_slice());
    let found = find(0xBEDE, &block, 5).unwrap_or(&[]);
    assert_eq!(rt; found, [9].as_slice());
    assert!(rt; find(0xBEDE, &block, 6).is_none());
    assert!(rt; find(0xBEDE, &block, 0).is_none());
    assert!(rt; find(0x1010, &block, 3).is_none());
}

#[test]
fn what_is_written_is_read(rt: HostRuntime) {
    let mut block = PacketBuf::new();
    assert_eq!(rt; write_one(&mut block, 1, &[9]), Ok(()));
    assert_eq!(rt; write_one(&mut block, 14, &[7; 16]), Ok(()));
    let wanted = [
        0x10, 9, 0xEF, 7, 7, 7, 7, 7, 7, 7, 7, 7, 7, 7, 7, 7, 7, 7, 7,
    ];
    assert_eq!(rt; block.bytes(), wanted.as_slice());
    check_elements(&rt, 0xBEDE, block.bytes(), &[(1, &[9]), (14, &[7; 16])]);
    block.fill(&[]);
    assert_eq!(rt; write_two(&mut block, 255, &[]), Ok(()));
    assert_eq!(rt; write_two(&mut block, 1, &[9, 8]), Ok(()));
    assert_eq!(rt; block.bytes(), [255, 0, 1, 2, 9, 8].as_slice());
    check_elements(&rt, 0x1000, block.bytes(), &[(255, &[]), (1, &[9, 8])]);
    assert_eq!(rt; write_two(&mut block, 2, &[5; 255]), Ok(()));
    let found = find(0x1000, block.bytes(), 2).unwrap_or(&[]);
    assert_eq!(rt; found, [5; 255].as_slice());
}

#[test]
fn what_does_not_fit_is_not_written(rt: HostRuntime) {
    let mut block = PacketBuf::new();
    block.fill(&[0; 2046]);
    let one: [(u8, &[u8]); 6] = [
        (0, &[1]),
        (15, &[1]),
        (255, &[1]),
        (1, &[]),
        (1, &[1; 17]),
        (1, &[1, 2]),
    ];
    for (id, value) in one {
        assert_eq!(rt; write_one(&mut block, id, value), Err(NoFit));
    }
    let two: [(u8, &[u8]); 3] = [(0, &[]), (1, &[1; 256]), (1, &[1])];
    for (id, value) in two {
        assert_eq!(rt; write_two(&mut block, id, value), Err(NoFit));
    }
    assert_eq!(rt; block.bytes(), [0; 2046].as_slice());
    assert_eq!(rt; write_one(&mut block, 1, &[1]), Ok(()));
    assert_eq!(rt; block.bytes().len(), 2048);
    block.fill(&[0; 2046]);
    assert_eq!(rt; write_two(&mut block, 1, &[]), Ok(()));
    assert_eq!(rt; block.bytes().len(), 2048);
}

// Writes the block with a new value for this id. Returns `None` if the block has no element with the id, or the value isn't 1 to 255 bytes long.
fn reblocked(
    profile: u16,
    block: &[u8],
    id: u8,
    value: &[u8],
    out: &mut PacketBuf,
) -> Option<Result<(), NoFit>> {
    if value.is_empty() || value.len() > 255 {
        return None;
    }
    match find(profile, block, id) {
        Some(_) => Some(reblock(profile, block, id, value, out)),
        None => None,
    }
}

#[test]
fn one_value_is_replaced(rt: HostRuntime) {
    let rows: [(u16, &[u8], u8, &[u8], &[u8]); 6] = [
        // a descriptor of nine bytes gets another mask
        (
            0xBEDE,
            b"\x48\xc0\x00\x01\x80\x00\x3a\x41\x01\x00\x00\x00",
            4,
            b"\xc0\x00\x01\xc0\x00\x3a\x41\x01\x40",
            b"\xbe\xde\x00\x03\x48\xc0\x00\x01\xc0\x00\x3a\x41\x01\x40\x00\x00",
        ),
        // padding between elements is dropped, and so is everything from id 15 on
        (
            0xBEDE,
            b"\x10\xaa\x00\x20\xbb\xf0\x42\xc1",
            2,
            b"\x07\x08",
            b"\xbe\xde\x00\x02\x10\xaa\x21\x07\x08\x00\x00\x00",
        ),
        // 17 bytes need the two-byte form
        (
            0xBEDE,
            b"\x10\xaa\x20\xbb",
            2,
            &[7; 17],
            b"\x10\x00\x00\x06\x01\x01\xaa\x02\x11\x07\x07\x07\x07\x07\x07\x07\x07\x07\x07\x07\x07\x07\x07\x07\x07\x07\x00\x00",
        ),
        // 16 bytes don't
        (
            0xBEDE,
            b"\x20\xbb\x10\xaa",
            2,
            &[7; 16],
            b"\xbe\xde\x00\x05\x2f\x07\x07\x07\x07\x07\x07\x07\x07\x07\x07\x07\x07\x07\x07\x07\x07\x10\xaa\x00",
        ),
        // the two-byte form keeps its profile; of two elements with the id, the first gets the new value
        (
            0x100F,
            b"\x01\x00\x02\x01\x09\x02\x01\x08",
            2,
            b"\x05\x06",
            b"\x10\x0f\x00\x03\x01\x00\x02\x02\x05\x06\x02\x01\x08\x00\x00\x00",
        ),
        // the elements fill whole words, so there is no padding
        (
            0xBEDE,
            b"\x31\x01\x02\x00",
            3,
            b"\x09\x09\x09",
            b"\xbe\xde\x00\x01\x32\x09\x09\x09",
        ),
    ];
    for (profile, block, id, value, wanted) in rows {
        let mut out = PacketBuf::new();
        assert_eq!(rt;
            reblocked(profile, block, id, value, &mut out),
            Some(Ok(()))
        );
        assert_eq!(rt; out.bytes(), wanted);
    }
}

#[test]
fn a_new_block_that_has_no_room_is_not_written(rt: HostRuntime) {
    let mut out = PacketBuf::new();
    out.fill(&[1; 2041]);
    let block = [0x31, 1, 2, 0];
    assert_eq!(rt;
        reblocked(0xBEDE, &block, 3, &[9, 9, 9], &mut out),
        Some(Err(NoFit))
    );
    assert_eq!(rt; out.bytes(), [1; 2041].as_slice());
    out.fill(&[1; 2040]);
    assert_eq!(rt;
        reblocked(0xBEDE, &block, 3, &[9, 9, 9], &mut out),
        Some(Ok(()))
    );
    assert_eq!(rt; out.bytes().len(), 2048);
}

#[test]
fn a_packet_is_given_another_value(rt: HostRuntime) {
    let block = [0x10, 0xAA, 0x20, 0xBB];
    let mut extension = PacketBuf::new();
    if find(0xBEDE, &block, 2).is_some() {
        assert_eq!(rt; reblock(0xBEDE, &block, 2, &[7, 8], &mut extension), Ok(()));
    }
    assert_eq!(rt;
        extension.bytes(),
        [0xBE, 0xDE, 0, 2, 0x10, 0xAA, 0x21, 7, 8, 0, 0, 0].as_slice()
    );
}
