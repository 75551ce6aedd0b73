// Packets laid out by hand from RFC 3550, section 5.1.

ghost use Rattle.std.specs.Prelude.{◌≤◌, length};

use rtp_packet::{Rtp, read, restamp, rewrite};
use sfu_base::{PacketBuf, RtpFault};
use std::test::Fail;

// Version 2, padding, extension, two CSRC words; marker, payload type 96;
// an extension of one word; three bytes of payload; three bytes of padding.
static FULL: [u8; 34] = [
    0xB2, 0xE0, 0x12, 0x34, 1, 2, 3, 4, 0xAA, 0xBB, 0xCC, 0xDD, 0, 0, 0, 1, 0, 0, 0, 2, 0xBE, 0xDE,
    0, 1, 0x10, 0xAA, 0, 0, 7, 8, 9, 0, 0, 3,
];

// Returns the fault in these bytes, if there is one.
fn fault(bytes: &[u8]) -> Option<RtpFault> {
    match read(bytes) {
        Ok(_) => None,
        Err(fault) => Some(fault),
    }
}

// Returns a packet: a fixed header with this first byte, then `tail`.
fn with_tail(first: u8, tail: &[u8]) -> PacketBuf
    requires { length tail.now ≤ 100 }
{
    let mut packet = PacketBuf::new();
    packet.fill(&[first, 0x60, 0, 1, 0, 0, 0, 0, 0, 0, 0, 1]);
    packet.append(tail);
    packet
}

#[test]
fn each_part_is_found(rt: HostRuntime) -> Result<(), Fail> {
    let Rtp {
        marker,
        payload_type,
        seq,
        timestamp,
        ssrc,
        profile,
        block,
        payload,
    } = read(&FULL)?;
    assert!(rt; marker);
    assert_eq!(rt; payload_type, 96);
    assert_eq!(rt; seq, 0x1234);
    assert_eq!(rt; timestamp, 0x01020304);
    assert_eq!(rt; ssrc, 0xAABBCCDD);
    assert_eq!(rt; profile, Some(0xBEDE));
    assert_eq!(rt; block, [0x10, 0xAA, 0, 0].as_slice());
    assert_eq!(rt; payload, [7, 8, 9].as_slice());
    Ok(())
}

#[test]
fn each_fault_comes_first_at_its_edge(rt: HostRuntime) {
    let short = Some(RtpFault::Short);
    let version = Some(RtpFault::Version);
    let csrc = Some(RtpFault::Csrc);
    let extension = Some(RtpFault::Extension);
    let padding = Some(RtpFault::Padding);
    assert_eq!(rt; fault(&[]), short);
    assert_eq!(rt; fault(&FULL[..11]), short);
    assert_eq!(rt; fault(&FULL[..12]), csrc);
    assert_eq!(rt; fault(&FULL[..16]), csrc);
    assert_eq!(rt; fault(&FULL[..19]), csrc);
    for end in 20..28 {
        assert_eq!(rt; fault(&FULL[..end]), extension, "cut at {end}");
    }
    let rows: [(u8, &[u8], Option<RtpFault>); 14] = [
        // a fixed header alone
        (0x80, &[], None),
        // another version is reported, whatever other faults follow
        (0x00, &[], version),
        (0x7F, &[], version),
        (0xC0, &[], version),
        // one CSRC word: one byte short, then whole
        (0x81, &[0, 0, 0], csrc),
        (0x81, &[0, 0, 0, 5], None),
        // an extension of no words, and one of two words of which one is missing
        (0x90, &[0xBE, 0xDE, 0, 0], None),
        (0x90, &[0xBE, 0xDE, 0, 2, 0, 0, 0, 0], extension),
        // padding of no byte; with the count 0; with a count of all bytes after the header; with a count of one more
        (0xA0, &[], padding),
        (0xA0, &[9, 9, 0], padding),
        (0xA0, &[9, 9, 3], None),
        (0xA0, &[9, 9, 4], padding),
        // padding may not reach into the extension
        (0xB0, &[0xBE, 0xDE, 0, 0, 1], None),
        (0xB0, &[0xBE, 0xDE, 0, 0, 2], padding),
    ];
    for (first, tail, wanted) in rows {
        let packet = with_tail(first, tail);
        assert_eq!(rt; fault(packet.bytes()), wanted, "first byte {first}");
    }
}

#[test]
fn padding_may_be_all_that_follows(rt: HostRuntime) -> Result<(), Fail> {
    let packet = with_tail(0xA0, &[9, 9, 3]);
    let parts = read(packet.bytes())?;
    assert_eq!(rt; parts.payload, [].as_slice());
    assert_eq!(rt; parts.profile, None);
    Ok(())
}

#[test]
fn three_fields_are_rewritten(rt: HostRuntime) -> Result<(), Fail> {
    let mut packet = PacketBuf::new();
    packet.fill(&FULL);
    let _ = read(packet.bytes())?;
    rewrite(&mut packet, 0xFFFE, 0x22222222, false);
    let mut wanted = FULL;
    wanted[1] = 0x60;
    wanted[2] = 0xFF;
    wanted[3] = 0xFE;
    wanted[8] = 0x22;
    wanted[9] = 0x22;
    wanted[10] = 0x22;
    wanted[11] = 0x22;
    assert_eq!(rt; packet.bytes(), wanted.as_slice());
    rewrite(&mut packet, 0x1234, 0xAABBCCDD, true);
    assert_eq!(rt; packet.bytes(), FULL.as_slice());
    Ok(())
}

#[test]
fn the_timestamp_is_rewritten(rt: HostRuntime) -> Result<(), Fail> {
    let mut packet = PacketBuf::new();
    packet.fill(&FULL);
    let _ = read(packet.bytes())?;
    restamp(&mut packet, 0xFFFEFDFC);
    let mut wanted = FULL;
    wanted[4] = 0xFF;
    wanted[5] = 0xFE;
    wanted[6] = 0xFD;
    wanted[7] = 0xFC;
    assert_eq!(rt; packet.bytes(), wanted.as_slice());
    Ok(())
}

#[test]
fn a_packet_is_read_and_goes_out(rt: HostRuntime) -> Result<(), Fail> {
    let mut packet = PacketBuf::new();
    packet.fill(&[0x80, 0xE0, 0, 7, 0, 0, 0, 9, 0, 0, 0, 1, 0xAA]);
    let parts = read(packet.bytes())?;
    assert_eq!(rt;
        (parts.marker, parts.seq, parts.timestamp, parts.ssrc),
        (true, 7, 9, 1)
    );
    assert_eq!(rt; parts.payload, [0xAA].as_slice());
    rewrite(&mut packet, 8, 2, false);
    restamp(&mut packet, 90_000);
    assert_eq!(rt;
        packet.bytes(),
        [0x80, 0x60, 0, 8, 0, 1, 0x5F, 0x90, 0, 0, 0, 2, 0xAA].as_slice()
    );
    Ok(())
}
