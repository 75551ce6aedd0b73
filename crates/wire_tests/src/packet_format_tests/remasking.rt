// Remasked packets, written by hand: RFC 3550, sections 5.1 and 5.3.1, RFC 8285, and AV1 RTP payload format, Appendix A.

ghost use Rattle.std.specs.Prelude.{◌≤◌, ◌+◌, length};

use dd_structure::Structure;
use packet_format::Remasker;
use sfu_base::PacketBuf;
use std::test::Fail;

/// Descriptors of key frames with frame number 1. The structure of `A` has one target. The structure of `C` has two targets and two chains.
const A: [u8; 9] = [0xc0, 0x00, 0x01, 0x80, 0x00, 0x3a, 0x41, 0x01, 0x00];

const C: [u8; 16] = [
    0xc0, 0x00, 0x01, 0x80, 0x01, 0x23, 0xee, 0x88, 0x45, 0x04, 0x22, 0xe0, 0x02, 0x11, 0x11, 0x10,
];

/// The descriptor of a frame with structure C. Its 16 custom distances are 1 to 16, each written in four bits. `DISTANCES_TELLING_BOTH` is the same
/// descriptor with the mask of both targets.
const DISTANCES: [u8; 16] = [
    0xc1, 0x00, 0x02, 0x12, 0x08, 0xa4, 0x9a, 0x8a, 0xac, 0xbb, 0x0c, 0xb4, 0xdb, 0x8e, 0xbc, 0xf8,
];

const DISTANCES_TELLING_BOTH: [u8; 17] = [
    0xc1, 0x00, 0x02, 0x56, 0x82, 0x29, 0x26, 0xa2, 0xab, 0x2e, 0xc3, 0x2d, 0x36, 0xe3, 0xaf, 0x3e,
    0x00,
];

/// Fixed headers of packets with a header extension. The second header also has one CSRC identifier, and its padding bit is set.
const HEADER: [u8; 12] = [0x90, 0xe0, 0x03, 0xe8, 1, 2, 3, 4, 0x11, 0x11, 0x11, 0x11];

const PADDED_HEADER: [u8; 16] = [
    0xb1, 0xe0, 0x03, 0xe8, 1, 2, 3, 4, 0x11, 0x11, 0x11, 0x11, 0xaa, 0xbb, 0xcc, 0xdd,
];

/// A payload, and a payload followed by three bytes of padding.
const PAYLOAD: [u8; 3] = [0x18, 0x30, 0x00];

const PADDED_PAYLOAD: [u8; 6] = [0x18, 0x30, 0x00, 9, 9, 3];

/// Returns the structure that a descriptor carries.
fn structure_of(descriptor: &[u8]) -> Result<Structure, Fail> {
    match dd_descriptor::read(descriptor, None)?.structure {
        Some(structure) => Ok(structure),
        None => Err(Fail::from("no structure")),
    }
}

fn laid(header: &[u8], extension: &[u8], tail: &[u8]) -> PacketBuf
    requires { length header.now + length extension.now + length tail.now ≤ 2048 }
{
    let mut packet = PacketBuf::new();
    packet.append(header);
    packet.append(extension);
    packet.append(tail);
    packet
}

/// Puts the mask into the packet's descriptor, which is the header extension element with id 4. Returns the new packet, or `None` if the packet isn't
/// remasked. In the case of `None`, the output buffer is unchanged.
fn remasked(
    packet: &[u8],
    force: Option<&Structure>,
    mask: u32,
) -> Result<Option<PacketBuf>, Fail> {
    if rtp_packet::read(packet).is_err() {
        return Err(Fail::from("no packet"));
    }
    let mut out = PacketBuf::new();
    out.fill(&[7]);
    match Remasker::new().remask(packet, 4, force, mask, &mut out) {
        Ok(()) => Ok(Some(out)),
        Err(_) if out.bytes() == [7].as_slice() => Ok(None),
        Err(_) => Err(Fail::from("the buffer isn't as it was")),
    }
}

/// Makes a packet from this header, extension and tail. Checks that remasking the packet replaces the extension with `new`, and changes nothing else.
fn check(
    header: &[u8],
    extension: &[u8],
    tail: &[u8],
    force: Option<&Structure>,
    mask: u32,
    new: &[u8],
) -> Result<(), Fail>
    requires old { length header.now + length extension.now + length tail.now ≤ 2048 }
    requires new { length header.now + length new.now + length tail.now ≤ 2048 }
{
    let packet = laid(header, extension, tail);
    let Some(out) = remasked(packet.bytes(), force, mask)? else {
        return Err(Fail::from("the packet isn't remasked"));
    };
    if out.bytes() == laid(header, new, tail).bytes() {
        Ok(())
    } else {
        Err(Fail::from("other bytes"))
    }
}

#[test]
fn key_packets_tell_the_new_mask(rt: HostRuntime) -> Result<(), Fail> {
    let a = [
        0xbe, 0xde, 0x00, 0x03, 0x48, 0xc0, 0x00, 0x01, 0x80, 0x00, 0x3a, 0x41, 0x01, 0x00, 0, 0,
    ];
    let new_a = [
        0xbe, 0xde, 0x00, 0x03, 0x48, 0xc0, 0x00, 0x01, 0xc0, 0x00, 0x3a, 0x41, 0x01, 0x40, 0, 0,
    ];
    check(&HEADER, &a, &PAYLOAD, None, 1, &new_a)?;
    let b = [
        0xbe, 0xde, 0x00, 0x03, 0x48, 0xc0, 0x00, 0x01, 0x80, 0x00, 0x3b, 0x41, 0x01, 0x00, 0, 0,
    ];
    let new_b = [
        0xbe, 0xde, 0x00, 0x03, 0x48, 0xc0, 0x00, 0x01, 0xc0, 0x00, 0x3b, 0x41, 0x01, 0x40, 0, 0,
    ];
    let current = structure_of(&A)?;
    check(&HEADER, &b, &PAYLOAD, Some(&current), 1, &new_b)?;
    let c = [
        0xbe, 0xde, 0x00, 0x05, 0x4f, 0xc0, 0x00, 0x01, 0x80, 0x01, 0x23, 0xee, 0x88, 0x45, 0x04,
        0x22, 0xe0, 0x02, 0x11, 0x11, 0x10, 0, 0, 0,
    ];
    let both = [
        0xbe, 0xde, 0x00, 0x05, 0x4f, 0xc0, 0x00, 0x01, 0xc0, 0x01, 0x23, 0xee, 0x88, 0x45, 0x04,
        0x22, 0xe0, 0x02, 0x11, 0x11, 0x16, 0, 0, 0,
    ];
    let second = [
        0xbe, 0xde, 0x00, 0x05, 0x4f, 0xc0, 0x00, 0x01, 0xc0, 0x01, 0x23, 0xee, 0x88, 0x45, 0x04,
        0x22, 0xe0, 0x02, 0x11, 0x11, 0x14, 0, 0, 0,
    ];
    check(&HEADER, &c, &PAYLOAD, None, 3, &both)?;
    check(&PADDED_HEADER, &c, &PADDED_PAYLOAD, None, 2, &second)
}

#[test]
fn frames_of_a_structure_in_force_tell_the_new_mask(rt: HostRuntime) -> Result<(), Fail> {
    let structure = structure_of(&C)?;
    let force = Some(&structure);
    // The new extension is one word longer. Everything after the frame's definition is dropped, and so is the old mask.
    let short = [0xbe, 0xde, 0x00, 0x01, 0x42, 0xc1, 0x00, 0x03];
    let with_mask = [
        0xbe, 0xde, 0x00, 0x02, 0x43, 0xc1, 0x00, 0x03, 0x44, 0, 0, 0,
    ];
    check(&HEADER, &short, &PAYLOAD, force, 2, &with_mask)?;
    let behind = [
        0xbe, 0xde, 0x00, 0x02, 0x45, 0xc1, 0x00, 0x03, 0x47, 0xff, 0xff, 0,
    ];
    check(&HEADER, &behind, &PAYLOAD, force, 2, &with_mask)?;
    // Custom distances, a padding byte, and elements before and after the descriptor's element. One of those after it has the descriptor's id too.
    let among = [
        0xbe, 0xde, 0x00, 0x04, 0x31, 0xaa, 0xbb, 0x00, 0x44, 0xc3, 0x00, 0x06, 0x12, 0x00, 0x42,
        0xc1, 0x00, 0x03, 0x50, 0xcc,
    ];
    let with_mask = [
        0xbe, 0xde, 0x00, 0x04, 0x31, 0xaa, 0xbb, 0x44, 0xc3, 0x00, 0x06, 0x56, 0x80, 0x42, 0xc1,
        0x00, 0x03, 0x50, 0xcc, 0,
    ];
    check(
        &PADDED_HEADER,
        &among,
        &PADDED_PAYLOAD,
        force,
        3,
        &with_mask,
    )
}

#[test]
fn two_byte_blocks_keep_their_profile(rt: HostRuntime) -> Result<(), Fail> {
    let old = [
        0x10, 0x07, 0x00, 0x09, 0x01, 0x02, 0xaa, 0xbb, 0x00, 0x04, 0x18, 0xc0, 0x00, 0x01, 0x80,
        0x01, 0x23, 0xee, 0x88, 0x45, 0x04, 0x22, 0xe0, 0x02, 0x11, 0x11, 0x18, 0x13, 0xf8, 0x0b,
        0x38, 0x27, 0xf8, 0x16, 0x78, 0x05, 0x01, 0xcc, 0x00, 0x00,
    ];
    let new = [
        0x10, 0x07, 0x00, 0x09, 0x01, 0x02, 0xaa, 0xbb, 0x04, 0x18, 0xc0, 0x00, 0x01, 0xc0, 0x01,
        0x23, 0xee, 0x88, 0x45, 0x04, 0x22, 0xe0, 0x02, 0x11, 0x11, 0x18, 0x13, 0xf8, 0x0b, 0x38,
        0x27, 0xf8, 0x16, 0x7e, 0x05, 0x01, 0xcc, 0x00, 0x00, 0x00,
    ];
    check(&PADDED_HEADER, &old, &PADDED_PAYLOAD, None, 3, &new)
}

#[test]
fn a_descriptor_of_more_than_16_bytes_takes_the_two_byte_form(rt: HostRuntime) -> Result<(), Fail> {
    let structure = structure_of(&C)?;
    let mut old = [0; 28];
    old[..4].copy_from_slice(&[0xbe, 0xde, 0x00, 0x06]);
    old[4..7].copy_from_slice(&[0x10, 0xaa, 0x4f]);
    old[7..23].copy_from_slice(&DISTANCES);
    old[23..25].copy_from_slice(&[0x50, 0xbb]);
    let mut new = [0; 32];
    new[..4].copy_from_slice(&[0x10, 0x00, 0x00, 0x07]);
    new[4..9].copy_from_slice(&[0x01, 0x01, 0xaa, 0x04, 0x11]);
    new[9..26].copy_from_slice(&DISTANCES_TELLING_BOTH);
    new[26..29].copy_from_slice(&[0x05, 0x01, 0xbb]);
    check(&HEADER, &old, &PAYLOAD, Some(&structure), 3, &new)?;
    check(
        &PADDED_HEADER,
        &old,
        &PADDED_PAYLOAD,
        Some(&structure),
        3,
        &new,
    )
}

#[test]
fn a_descriptor_of_more_than_255_bytes_isnt_sent(rt: HostRuntime) -> Result<(), Fail> {
    // 29 templates and 32 targets; no template is present in any target. Template 0 has the distances 1, 2 and 3.
    let mut old = [0; 260];
    old[..4].copy_from_slice(&[0x10, 0x00, 0x00, 0x40]);
    old[4..11].copy_from_slice(&[0x04, 251, 0xc0, 0x00, 0x01, 0x80, 0x1f]);
    old[18] = 0xc0;
    old[250] = 0x21;
    old[251] = 0x19;
    let mut new = [0; 264];
    new[..4].copy_from_slice(&[0x10, 0x00, 0x00, 0x41]);
    new[4..11].copy_from_slice(&[0x04, 255, 0xc0, 0x00, 0x01, 0xc0, 0x1f]);
    new[18] = 0xc0;
    new[250] = 0x21;
    new[251] = 0x19;
    new[256] = 0x08;
    new[260] = 0x10;
    check(&HEADER, &old, &PAYLOAD, None, 0x80000001, &new)?;
    // With the distance 4 as well, the descriptor has 2,009 bits and 32 mask bits: more than 255 bytes.
    old[5] = 252;
    old[252] = 0x4c;
    let packet = laid(&HEADER, &old, &PAYLOAD);
    assert!(rt; remasked(packet.bytes(), None, 0x80000001)?.is_none());
    Ok(())
}

#[test]
fn a_packet_of_more_than_1536_bytes_isnt_sent(rt: HostRuntime) -> Result<(), Fail> {
    let structure = structure_of(&C)?;
    // The descriptor, and 40 elements of one byte each. Before remasking the extension has 97 bytes and three of padding, after it 139 and one of padding.
    let mut old = [0; 104];
    old[..5].copy_from_slice(&[0xbe, 0xde, 0x00, 0x19, 0x4f]);
    old[5..21].copy_from_slice(&DISTANCES);
    for i in 0..40 {
        old[21 + 2 * i] = 0x10;
        old[22 + 2 * i] = 0xaa;
    }
    let mut new = [0; 144];
    new[..6].copy_from_slice(&[0x10, 0x00, 0x00, 0x23, 0x04, 0x11]);
    new[6..23].copy_from_slice(&DISTANCES_TELLING_BOTH);
    for i in 0..40 {
        new[23 + 3 * i] = 0x01;
        new[24 + 3 * i] = 0x01;
        new[25 + 3 * i] = 0xaa;
    }
    let payload = [0x55; 1381];
    check(&HEADER, &old, &payload[..1380], Some(&structure), 3, &new)?;
    let packet = laid(&HEADER, &old, &payload);
    assert!(rt; remasked(packet.bytes(), Some(&structure), 3)?.is_none());
    Ok(())
}

#[test]
fn a_packet_without_a_descriptor_that_reads_isnt_remasked(rt: HostRuntime) -> Result<(), Fail> {
    let structure = structure_of(&C)?;
    // In turn: no structure in force; template 63, which C lacks; another id; a truncated descriptor; no element.
    let frame = [0xbe, 0xde, 0x00, 0x01, 0x42, 0xc2, 0x00, 0x02];
    let rows: [(&[u8], Option<&Structure>); 5] = [
        (&frame, None),
        (
            &[0xbe, 0xde, 0x00, 0x01, 0x42, 0xff, 0x00, 0x02],
            Some(&structure),
        ),
        (
            &[0xbe, 0xde, 0x00, 0x01, 0x52, 0xc2, 0x00, 0x02],
            Some(&structure),
        ),
        (
            &[0xbe, 0xde, 0x00, 0x01, 0x41, 0xc2, 0x00, 0x00],
            Some(&structure),
        ),
        (&[0xbe, 0xde, 0x00, 0x00], Some(&structure)),
    ];
    for (extension, force) in rows {
        if extension.len() > 100 {
            return Err(Fail::from("a long extension"));
        }
        let packet = laid(&HEADER, extension, &PAYLOAD);
        assert!(rt; remasked(packet.bytes(), force, 1)?.is_none());
    }
    // Mask bits past the two targets are left out.
    let with_mask = [
        0xbe, 0xde, 0x00, 0x02, 0x43, 0xc2, 0x00, 0x02, 0x44, 0, 0, 0,
    ];
    check(
        &HEADER,
        &frame,
        &PAYLOAD,
        Some(&structure),
        0xffff_fffe,
        &with_mask,
    )
}
