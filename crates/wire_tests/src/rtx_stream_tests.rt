// Packets laid out by hand from RFC 3550, section 5.1, and RFC 4588, section 4.

use rtp_packet::read;
use rtx_stream::{Rtx, RtxFault, unwrap, wrap};
use sfu_base::{PacketBuf, RtpFault};
use std::process::Abort;
use std::test::Fail;

const STREAM: Rtx = Rtx {
    ssrc: 0x33333333,
    payload_type: 97,
};

// Checks that `packet`, wrapped with sequence number 0, is `wrapped`, and that `wrapped` carries `carried`.
fn check_row(rt: &impl Abort, packet: &[u8], wrapped: &[u8], carried: &[u8]) -> Result<(), Fail> {
    let mut out = PacketBuf::new();
    if packet.len() > 2046 || wrapped.len() > 2048 {
        return Ok(());
    }
    let _ = read(packet)?;
    wrap(packet, 0, &STREAM, &mut out);
    assert_eq!(rt; out.bytes(), wrapped);
    assert_eq!(rt; unwrap(wrapped, 0x22222222, 96, &mut out), Ok(()));
    assert_eq!(rt; out.bytes(), carried);
    Ok(())
}

#[test]
fn what_is_wrapped_comes_back_without_padding(rt: HostRuntime) -> Result<(), Fail> {
    let rows: [(&[u8], &[u8], &[u8]); 4] = [
        (
            b"\x80\x60\x00\x07\x00\x00\x00\x00\x22\x22\x22\x22\xaa\xbb",
            b"\x80\x61\x00\x00\x00\x00\x00\x00\x33\x33\x33\x33\x00\x07\xaa\xbb",
            b"\x80\x60\x00\x07\x00\x00\x00\x00\x22\x22\x22\x22\xaa\xbb",
        ),
        // two bytes of padding
        (
            b"\xa0\x60\x00\x07\x00\x00\x00\x00\x22\x22\x22\x22\xaa\x00\x02",
            b"\x80\x61\x00\x00\x00\x00\x00\x00\x33\x33\x33\x33\x00\x07\xaa",
            b"\x80\x60\x00\x07\x00\x00\x00\x00\x22\x22\x22\x22\xaa",
        ),
        // marker, timestamp, a CSRC word, an extension of one word, no payload, one byte of padding
        (
            b"\xb1\xe0\xff\xfe\x01\x02\x03\x04\x22\x22\x22\x22\x00\x00\x00\x05\xbe\xde\x00\x01\x10\x09\x00\x00\x01",
            b"\x91\xe1\x00\x00\x01\x02\x03\x04\x33\x33\x33\x33\x00\x00\x00\x05\xbe\xde\x00\x01\x10\x09\x00\x00\xff\xfe",
            b"\x91\xe0\xff\xfe\x01\x02\x03\x04\x22\x22\x22\x22\x00\x00\x00\x05\xbe\xde\x00\x01\x10\x09\x00\x00",
        ),
        // an extension of no word
        (
            b"\x90\x60\x00\x07\x00\x00\x00\x00\x22\x22\x22\x22\x10\x00\x00\x00\xcc",
            b"\x90\x61\x00\x00\x00\x00\x00\x00\x33\x33\x33\x33\x10\x00\x00\x00\x00\x07\xcc",
            b"\x90\x60\x00\x07\x00\x00\x00\x00\x22\x22\x22\x22\x10\x00\x00\x00\xcc",
        ),
    ];
    for (packet, wrapped, carried) in rows {
        check_row(&rt, packet, wrapped, carried)?;
    }
    Ok(())
}

#[test]
fn what_carries_no_packet_is_refused(rt: HostRuntime) {
    let rows: [(&[u8], RtxFault); 4] = [
        // a payload of one byte; a payload of nothing but padding
        (
            b"\x80\x61\x00\x00\x00\x00\x00\x00\x33\x33\x33\x33\xaa",
            RtxFault::Cut,
        ),
        (
            b"\xa0\x61\x00\x00\x00\x00\x00\x00\x33\x33\x33\x33\xaa\xbb\x03",
            RtxFault::Cut,
        ),
        (b"\x80\x61", RtxFault::Unreadable(RtpFault::Short)),
        (
            b"\x91\x61\x00\x00\x00\x00\x00\x00\x33\x33\x33\x33",
            RtxFault::Unreadable(RtpFault::Csrc),
        ),
    ];
    let mut out = PacketBuf::new();
    out.fill(&[7]);
    for (bytes, fault) in rows {
        if bytes.len() <= 2048 {
            assert_eq!(rt; unwrap(bytes, 0x22222222, 96, &mut out), Err(fault));
        }
        assert_eq!(rt; out.bytes(), [7].as_slice());
    }
}

#[test]
fn a_lost_packet_is_sent_again(rt: HostRuntime) -> Result<(), Fail> {
    let lost = [0x80, 0x60, 0, 7, 0, 0, 0, 0, 0x22, 0x22, 0x22, 0x22, 0xAA];
    let rtx = Rtx {
        ssrc: 0x33333333,
        payload_type: 97,
    };
    let mut sent = PacketBuf::new();
    if read(&lost).is_ok() {
        wrap(&lost, 0, &rtx, &mut sent);
    }
    let mut got = PacketBuf::new();
    unwrap(sent.bytes(), 0x22222222, 96, &mut got)?;
    assert_eq!(rt; got.bytes(), lost.as_slice());
    Ok(())
}
