// Payloads laid out by hand from RTP Payload Format For AV1, section 4.4, and AV1 Bitstream Specification, section 4.10.5.

use av1_payload::{PayloadFault, read};
use std::process::Abort;
use std::test::Fail;

// A payload, its bits Z, Y and N, and its elements.
type Row<'a> = (&'a [u8], [bool; 3], &'a [&'a [u8]]);

const NO_FLAGS: [bool; 3] = [false, false, false];

const PAYLOADS: [Row; 20] = [
    // W = 0: a length precedes each element
    (
        &[0x00, 2, 0x30, 0xAA, 1, 0x10],
        NO_FLAGS,
        &[&[0x30, 0xAA], &[0x10]],
    ),
    (
        &[0x00, 1, 5, 0, 1, 6, 2, 7, 8, 0],
        NO_FLAGS,
        &[&[5], &[], &[6], &[7, 8], &[]],
    ),
    // W = 1 to 3: no length precedes the last element
    (&[0x10, 2, 0x30, 0xAA], NO_FLAGS, &[&[2, 0x30, 0xAA]]),
    (&[0x20, 2, 1, 2, 3, 4], NO_FLAGS, &[&[1, 2], &[3, 4]]),
    (
        &[0x30, 1, 0xAA, 2, 0xBB, 0xCC, 0xDD],
        NO_FLAGS,
        &[&[0xAA], &[0xBB, 0xCC], &[0xDD]],
    ),
    // empty elements
    (&[0x00, 0], NO_FLAGS, &[&[]]),
    (&[0x10], NO_FLAGS, &[&[]]),
    (&[0x20, 0], NO_FLAGS, &[&[], &[]]),
    (&[0x30, 0, 0], NO_FLAGS, &[&[], &[], &[]]),
    // an empty last element, because the first one's length takes all bytes
    (&[0x20, 2, 1, 2], NO_FLAGS, &[&[1, 2], &[]]),
    // each flag by itself, then all three
    (&[0x90], [true, false, false], &[&[]]),
    (&[0x50], [false, true, false], &[&[]]),
    (&[0x18], [false, false, true], &[&[]]),
    (&[0xD8], [true, true, true], &[&[]]),
    // reserved bits
    (&[0x17, 9], NO_FLAGS, &[&[9]]),
    (&[0x27, 1, 9], NO_FLAGS, &[&[9], &[]]),
    // lengths in longer codes than needed, up to eight bytes
    (&[0x00, 0x80, 0], NO_FLAGS, &[&[]]),
    (&[0x00, 0x81, 0x80, 0, 9], NO_FLAGS, &[&[9]]),
    (
        &[0x00, 0x80, 0x80, 0x80, 0x80, 0x80, 0x80, 0x80, 0],
        NO_FLAGS,
        &[&[]],
    ),
    (
        &[0x20, 0x81, 0x80, 0x80, 0x80, 0x80, 0x80, 0x80, 0, 9, 8],
        NO_FLAGS,
        &[&[9], &[8]],
    ),
];

const FAULTS: [(&[u8], PayloadFault); 20] = [
    (&[], PayloadFault::Empty),
    // W = 0 and nothing after the header, whatever the header's other bits are
    (&[0x00], PayloadFault::NoElement),
    (&[0xCF], PayloadFault::NoElement),
    // the bytes end where a length should begin
    (&[0x20], PayloadFault::Leb),
    (&[0x30, 1, 0xAA], PayloadFault::Leb),
    // the bytes end within a length
    (&[0x00, 0x80], PayloadFault::Leb),
    (&[0x00, 1, 0xAA, 0xFF, 0x80], PayloadFault::Leb),
    // a length of nine bytes
    (
        &[0x00, 0x80, 0x80, 0x80, 0x80, 0x80, 0x80, 0x80, 0x80, 0],
        PayloadFault::Leb,
    ),
    // the lengths 2^32 and 2^56 - 1, which leb128 doesn't allow, and 2^32 - 1, the greatest length
    (&[0x00, 0x80, 0x80, 0x80, 0x80, 0x10], PayloadFault::Leb),
    (
        &[0x00, 0xFF, 0xFF, 0xFF, 0xFF, 0xFF, 0xFF, 0xFF, 0x7F],
        PayloadFault::Leb,
    ),
    (&[0x00, 0xFF, 0xFF, 0xFF, 0xFF, 0x0F], PayloadFault::Length),
    // a length greater than the number of bytes that follow
    (&[0x00, 1], PayloadFault::Length),
    (&[0x00, 3, 0xAA, 0xBB], PayloadFault::Length),
    (&[0x00, 1, 0xAA, 3, 0xBB, 0xCC], PayloadFault::Length),
    (&[0x20, 3, 0xAA, 0xBB], PayloadFault::Length),
    (&[0x20, 5, 0x30], PayloadFault::Length),
    (&[0x30, 1, 0xAA, 2, 0xBB], PayloadFault::Length),
    // the first of two faults is returned
    (&[0x30, 5, 0xAA, 0x80], PayloadFault::Length),
    (&[0x30, 0x80, 0x80], PayloadFault::Leb),
    (&[0x30, 0, 0x80], PayloadFault::Leb),
];

// Checks that the payload has these flags and exactly these elements, in this order.
fn check_payload(rt: &impl Abort, row: Row) {
    let (bytes, flags, wanted) = row;
    let payload = read(bytes).expect(rt, "a payload");
    assert_eq!(rt; payload.continues, flags[0]);
    assert_eq!(rt; payload.carries, flags[1]);
    assert_eq!(rt; payload.new_sequence, flags[2]);
    let mut left = payload.elements();
    for element in wanted {
        assert_eq!(rt; left.next(), Some(*element));
    }
    assert_eq!(rt; left.next(), None);
}

#[test]
fn each_payload_has_its_flags_and_elements(rt: HostRuntime) {
    for row in PAYLOADS {
        check_payload(&rt, row);
    }
}

#[test]
fn each_fault_is_named(rt: HostRuntime) {
    for (bytes, fault) in FAULTS {
        assert_eq!(rt; read(bytes), Err(fault));
    }
}

// The length 300 is coded as AC 02 (leb128).
#[test]
fn an_element_of_300_bytes_is_read(rt: HostRuntime) {
    let mut bytes = [7; 304];
    bytes[0] = 0x20;
    bytes[1] = 0xAC;
    bytes[2] = 0x02;
    bytes[303] = 9;
    check_payload(&rt, (&bytes, NO_FLAGS, &[&[7; 300], &[9]]));
    bytes[0] = 0x00;
    check_payload(&rt, (&bytes[..303], NO_FLAGS, &[&[7; 300]]));
}

#[test]
fn a_payload_is_taken_apart(rt: HostRuntime) -> Result<(), Fail> {
    let payload = read(&[0x68, 0x02, 0x30, 0xAA, 0x10])?;
    assert!(rt; payload.carries && payload.new_sequence && !payload.continues);
    let mut elements = payload.elements();
    assert_eq!(rt; elements.next(), Some([0x30, 0xAA].as_slice()));
    assert_eq!(rt; elements.next(), Some([0x10].as_slice()));
    assert_eq!(rt; elements.next(), None);
    Ok(())
}
