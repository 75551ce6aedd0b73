// Tests of the mask with which a frame's first packet is sent, byte by byte. The header extension elements have the format of RFC 8285. The
// descriptors have the format of Appendix A of RTP Payload Format For AV1. One structure has a single target. The other structure has two targets,
// and target 1 has only the lower layer.
ghost use Rattle.std.specs.Prelude.{◌≤◌, length};

use super::{HIGHEST, LAYERED, LOWEST, join, publish, scratch, take};
use crate::{KeepNone, Room};
use sfu_base::{PacketBuf, Refusal, Reply, Wish};
use std::process::Abort;

const PAYLOAD: [u8; 3] = [0x10, 0x30, 0x00];

// Returns a packet with this sequence number, SSRC and header extension. `marker` is the byte with the marker and the payload type.
fn laid(marker: u8, seq: u16, ssrc: u8, extension: &[u8]) -> PacketBuf
    requires { length extension.now ≤ 100 }
{
    let [high, low] = seq.to_be_bytes();
    let mut packet = PacketBuf::new();
    packet.fill(&[0x90, marker, high, low, 0, 0, 0, 0, ssrc, ssrc, ssrc, ssrc]);
    packet.append(extension);
    packet.append(&PAYLOAD);
    packet
}

// A packet that arrives, and the packet that is sent for it. Each packet is given by the byte with its marker, and by its header extension.
type Row<'a> = (u8, &'a [u8], u8, &'a [u8]);

// Checks the packets that are sent to a subscriber with this wish. Their sequence numbers begin at 7. Also checks that a resend returns the same
// bytes.
fn check(rt: &impl Abort, room: &mut Room<KeepNone>, wish: Wish, row: &[Row<'_>]) {
    let mut scratch = scratch();
    assert_eq!(rt;
        room.serve(0, &publish(1, LAYERED), &mut scratch),
        Reply::Done
    );
    assert_eq!(rt; room.serve(0, &join(1, 1, wish), &mut scratch), Reply::Done);
    for (place, (marker, extension, _, _)) in row.iter().enumerate() {
        if extension.len() <= 100 {
            let bytes = laid(*marker, (place % 100) as u16, 0x11, extension);
            assert_eq!(rt; room.packet(0, 1, 0, &bytes), Reply::Done);
        }
    }
    for (place, (_, _, marker, extension)) in row.iter().enumerate() {
        if extension.len() <= 100 {
            let seq = 7 + (place % 100) as u16;
            let sent = laid(*marker, seq, 0x22, extension);
            assert_eq!(rt; room.take(0, 1, &mut scratch), Reply::Packet);
            assert_eq!(rt; scratch.packet.bytes(), sent.bytes(), "{place}");
            assert_eq!(rt; room.resend(0, 1, seq, &mut scratch), Reply::Packet);
            assert_eq!(rt; scratch.packet.bytes(), sent.bytes(), "{place}");
        }
    }
    let empty = Reply::Refused(Refusal::Empty);
    assert_eq!(rt; room.serve(0, &take(1), &mut scratch), empty);
}

#[test]
fn a_frames_first_packet_carries_the_targets(rt: HostRuntime) {
    let rows: [(Wish, &[Row<'_>]); 7] = [
        // A key frame is followed by a frame with neither structure nor mask.
        (
            LOWEST,
            &[
                (
                    0xe0,
                    &[
                        0xbe, 0xde, 0x00, 0x03, 0x48, 0xc0, 0x00, 0x01, 0x80, 0x00, 0x3a, 0x41,
                        0x01, 0x00, 0x00, 0x00,
                    ],
                    0xe0,
                    &[
                        0xbe, 0xde, 0x00, 0x03, 0x48, 0xc0, 0x00, 0x01, 0xc0, 0x00, 0x3a, 0x41,
                        0x01, 0x40, 0x00, 0x00,
                    ],
                ),
                (
                    0xe0,
                    &[0xbe, 0xde, 0x00, 0x01, 0x42, 0xc1, 0x00, 0x02],
                    0xe0,
                    &[0xbe, 0xde, 0x00, 0x01, 0x42, 0xc1, 0x00, 0x02],
                ),
            ],
        ),
        // The wish allows both layers. The second packet has the higher layer of the same temporal unit.
        (
            HIGHEST,
            &[
                (
                    0x60,
                    &[
                        0xbe, 0xde, 0x00, 0x05, 0x4f, 0xc0, 0x00, 0x01, 0x80, 0x01, 0x23, 0xee,
                        0x88, 0x45, 0x04, 0x22, 0xe0, 0x02, 0x11, 0x11, 0x10, 0x00, 0x00, 0x00,
                    ],
                    0x60,
                    &[
                        0xbe, 0xde, 0x00, 0x05, 0x4f, 0xc0, 0x00, 0x01, 0xc0, 0x01, 0x23, 0xee,
                        0x88, 0x45, 0x04, 0x22, 0xe0, 0x02, 0x11, 0x11, 0x16, 0x00, 0x00, 0x00,
                    ],
                ),
                (
                    0xe0,
                    &[0xbe, 0xde, 0x00, 0x01, 0x42, 0xc2, 0x00, 0x02],
                    0xe0,
                    &[0xbe, 0xde, 0x00, 0x01, 0x42, 0xc2, 0x00, 0x02],
                ),
            ],
        ),
        // The wish allows only the lower layer, which is target 1. The publisher's second packet has a mask with both targets.
        (
            LOWEST,
            &[
                (
                    0x60,
                    &[
                        0xbe, 0xde, 0x00, 0x05, 0x4f, 0xc0, 0x00, 0x01, 0x80, 0x01, 0x23, 0xee,
                        0x88, 0x45, 0x04, 0x22, 0xe0, 0x02, 0x11, 0x11, 0x10, 0x00, 0x00, 0x00,
                    ],
                    0xe0,
                    &[
                        0xbe, 0xde, 0x00, 0x05, 0x4f, 0xc0, 0x00, 0x01, 0xc0, 0x01, 0x23, 0xee,
                        0x88, 0x45, 0x04, 0x22, 0xe0, 0x02, 0x11, 0x11, 0x14, 0x00, 0x00, 0x00,
                    ],
                ),
                (
                    0x60,
                    &[
                        0xbe, 0xde, 0x00, 0x02, 0x43, 0xc1, 0x00, 0x03, 0x46, 0x00, 0x00, 0x00,
                    ],
                    0xe0,
                    &[
                        0xbe, 0xde, 0x00, 0x02, 0x43, 0xc1, 0x00, 0x03, 0x44, 0x00, 0x00, 0x00,
                    ],
                ),
            ],
        ),
        // Only the first packet of the frame is rewritten, although the second packet also carries a mask.
        (
            LOWEST,
            &[
                (
                    0x60,
                    &[
                        0xbe, 0xde, 0x00, 0x03, 0x48, 0x80, 0x00, 0x01, 0x80, 0x00, 0x3a, 0x41,
                        0x01, 0x00, 0x00, 0x00,
                    ],
                    0x60,
                    &[
                        0xbe, 0xde, 0x00, 0x03, 0x48, 0x80, 0x00, 0x01, 0xc0, 0x00, 0x3a, 0x41,
                        0x01, 0x40, 0x00, 0x00,
                    ],
                ),
                (
                    0xe0,
                    &[
                        0xbe, 0xde, 0x00, 0x02, 0x43, 0x40, 0x00, 0x01, 0x44, 0x00, 0x00, 0x00,
                    ],
                    0xe0,
                    &[
                        0xbe, 0xde, 0x00, 0x02, 0x43, 0x40, 0x00, 0x01, 0x44, 0x00, 0x00, 0x00,
                    ],
                ),
            ],
        ),
        // There are elements before and after the descriptor's element, and a byte of padding between elements.
        (
            LOWEST,
            &[(
                0xe0,
                &[
                    0xbe, 0xde, 0x00, 0x04, 0x31, 0xaa, 0xbb, 0x00, 0x48, 0xc0, 0x00, 0x01, 0x80,
                    0x00, 0x3a, 0x41, 0x01, 0x00, 0x50, 0xcc,
                ],
                0xe0,
                &[
                    0xbe, 0xde, 0x00, 0x04, 0x31, 0xaa, 0xbb, 0x48, 0xc0, 0x00, 0x01, 0xc0, 0x00,
                    0x3a, 0x41, 0x01, 0x40, 0x50, 0xcc, 0x00,
                ],
            )],
        ),
        // The header extension has elements with two-byte headers, before and after the descriptor's element. It is sent with the same profile.
        (
            HIGHEST,
            &[(
                0x60,
                &[
                    0x10, 0x07, 0x00, 0x09, 0x01, 0x02, 0xaa, 0xbb, 0x04, 0x18, 0xc0, 0x00, 0x01,
                    0x80, 0x01, 0x23, 0xee, 0x88, 0x45, 0x04, 0x22, 0xe0, 0x02, 0x11, 0x11, 0x18,
                    0x13, 0xf8, 0x0b, 0x38, 0x27, 0xf8, 0x16, 0x78, 0x05, 0x01, 0xcc, 0x00, 0x00,
                    0x00,
                ],
                0x60,
                &[
                    0x10, 0x07, 0x00, 0x09, 0x01, 0x02, 0xaa, 0xbb, 0x04, 0x18, 0xc0, 0x00, 0x01,
                    0xc0, 0x01, 0x23, 0xee, 0x88, 0x45, 0x04, 0x22, 0xe0, 0x02, 0x11, 0x11, 0x18,
                    0x13, 0xf8, 0x0b, 0x38, 0x27, 0xf8, 0x16, 0x7e, 0x05, 0x01, 0xcc, 0x00, 0x00,
                    0x00,
                ],
            )],
        ),
        // The descriptor grows to 17 bytes, so the elements get two-byte headers.
        (
            HIGHEST,
            &[(
                0x60,
                &[
                    0xbe, 0xde, 0x00, 0x05, 0x4f, 0xc0, 0x00, 0x01, 0x90, 0x01, 0x23, 0xee, 0x88,
                    0x45, 0x04, 0x22, 0xe0, 0x02, 0x11, 0x11, 0x10, 0x00, 0x00, 0x00,
                ],
                0x60,
                &[
                    0x10, 0x00, 0x00, 0x05, 0x04, 0x11, 0xc0, 0x00, 0x01, 0xd0, 0x01, 0x23, 0xee,
                    0x88, 0x45, 0x04, 0x22, 0xe0, 0x02, 0x11, 0x11, 0x16, 0x00, 0x00,
                ],
            )],
        ),
    ];
    for (wish, row) in rows {
        let mut room = Room::new(rt.alloc(), KeepNone::new());
        check(&rt, &mut room, wish, row);
    }
}
