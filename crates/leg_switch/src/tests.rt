// Packets of two legs, and which of them are forwarded. The expected timestamps were worked out by hand. Each timestamp is the packet's own
// plus the leg's offset or, at a change of leg, the last forwarded timestamp plus 3,000.

use crate::{FrameNumbers, Switch};
use dd_descriptor::NewestDescriptor;
use rtp_packet::read;
use sfu_base::PacketBuf;
use std::test::Fail;

#[test]
fn legs_change_between_frames_at_key_frames(rt: HostRuntime) -> Result<(), Fail> {
    // The chosen leg, the leg of the packet, the packet, and the timestamp with which it is forwarded (`None`: it is dropped).
    let rows: [(u8, u8, &[u8], Option<u32>); 17] = [
        // a key frame of a leg that isn't chosen, then a packet of the chosen leg that doesn't begin a key frame
        (
            1,
            2,
            b"\x90\xe0\x00\x01\x00\x00\x00\x64\x44\x44\x44\x44\xbe\xde\x00\x03\x48\xc0\x00\x01\x80\x00\x3a\x41\x01\x00\x00\x00\x18\x30\x00",
            None,
        ),
        (
            1,
            1,
            b"\x90\xe0\x00\x01\x00\x00\x00\x06\x11\x11\x11\x11\xbe\xde\x00\x01\x42\xc1\x00\x02\x10\x30\x00",
            None,
        ),
        // the first key frame of the chosen leg, with its own timestamp
        (
            1,
            1,
            b"\x90\xe0\x00\x02\x00\x00\x00\x07\x11\x11\x11\x11\xbe\xde\x00\x03\x48\xc0\x00\x03\x80\x00\x3a\x41\x01\x00\x00\x00\x18\x30\x00",
            Some(7),
        ),
        (
            1,
            2,
            b"\x90\xe0\x00\x01\x00\x00\x00\x64\x44\x44\x44\x44\xbe\xde\x00\x03\x48\xc0\x00\x01\x80\x00\x3a\x41\x01\x00\x00\x00\x18\x30\x00",
            None,
        ),
        // leg 2 is chosen in the middle of a frame of leg 1
        (
            1,
            1,
            b"\x90\x60\x00\x03\x00\x00\x00\x08\x11\x11\x11\x11\xbe\xde\x00\x01\x42\x81\x00\x04\x50\x30\x00",
            Some(8),
        ),
        (
            2,
            2,
            b"\x90\xe0\x00\x02\x00\x00\x00\x64\x44\x44\x44\x44\xbe\xde\x00\x03\x48\xc0\x00\x02\x80\x00\x3a\x41\x01\x00\x00\x00\x18\x30\x00",
            None,
        ),
        (
            2,
            1,
            b"\x90\xe0\x00\x04\x00\x00\x00\x08\x11\x11\x11\x11\xbe\xde\x00\x01\x42\x41\x00\x04\x90\x00\x00",
            Some(8),
        ),
        // a frame of leg 2 that isn't a key frame, then a key frame, whose timestamp is 8 plus 3,000
        (
            2,
            2,
            b"\x90\xe0\x00\x03\x00\x00\x00\x63\x44\x44\x44\x44\xbe\xde\x00\x01\x42\xc1\x00\x03\x10\x30\x00",
            None,
        ),
        (
            2,
            2,
            b"\x90\xe0\x00\x04\x00\x00\x00\x64\x44\x44\x44\x44\xbe\xde\x00\x03\x48\xc0\x00\x04\x80\x00\x3a\x41\x01\x00\x00\x00\x18\x30\x00",
            Some(3008),
        ),
        (
            2,
            1,
            b"\x90\xe0\x00\x05\x00\x00\x00\x09\x11\x11\x11\x11\xbe\xde\x00\x01\x42\xc1\x00\x05\x10\x30\x00",
            None,
        ),
        // the active leg is still forwarded when another leg is chosen
        (
            1,
            2,
            b"\x90\xe0\x00\x05\x00\x00\x00\x66\x44\x44\x44\x44\xbe\xde\x00\x01\x42\xc1\x00\x05\x10\x30\x00",
            Some(3010),
        ),
        // leg 1 becomes active again; its timestamps wrap around, and it has a new offset
        (
            1,
            1,
            b"\x90\xe0\x00\x06\xff\xff\xff\xfa\x11\x11\x11\x11\xbe\xde\x00\x03\x48\xc0\x00\x06\x80\x00\x3a\x41\x01\x00\x00\x00\x18\x30\x00",
            Some(6010),
        ),
        (
            1,
            1,
            b"\x90\xe0\x00\x07\x00\x00\x00\x04\x11\x11\x11\x11\xbe\xde\x00\x01\x42\xc1\x00\x07\x10\x30\x00",
            Some(6020),
        ),
        // a packet without a descriptor, and one with a descriptor of only two bytes: both are forwarded, since their leg is active, and neither ends a frame
        (
            2,
            1,
            b"\x80\x60\x00\x08\x00\x00\x00\x05\x11\x11\x11\x11\x10\x30\x00",
            Some(6021),
        ),
        (
            2,
            2,
            b"\x80\xe0\x00\x06\x00\x00\x00\x67\x44\x44\x44\x44\x18\x30\x00",
            None,
        ),
        (
            2,
            1,
            b"\x90\x60\x00\x09\x00\x00\x00\x06\x11\x11\x11\x11\xbe\xde\x00\x01\x41\xc0\x00\x00\x10\x30\x00",
            Some(6022),
        ),
        (
            2,
            2,
            b"\x90\xe0\x00\x07\x00\x00\x00\x64\x44\x44\x44\x44\xbe\xde\x00\x03\x48\xc0\x00\x08\x80\x00\x3a\x41\x01\x00\x00\x00\x18\x30\x00",
            None,
        ),
    ];
    let mut switch = Switch::new();
    let mut newest = NewestDescriptor::new();
    for (chosen, leg, packet, wanted) in rows {
        switch.choose(chosen);
        let _ = read(packet)?;
        assert_eq!(rt; switch.pass(4, leg, packet, &mut newest), wanted);
    }
    assert_eq!(rt; switch.chosen(), 2);
    assert_eq!(rt; switch.active(), Some(1));
    Ok(())
}

#[test]
fn a_leg_is_chosen_and_becomes_active(rt: HostRuntime) {
    let key_of_leg_2 =
        b"\x90\xe0\x00\x01\x00\x00\x00\x64\x44\x44\x44\x44\xbe\xde\x00\x03\x48\xc0\x00\x01\x80\x00\x3a\x41\x01\x00\x00\x00\x18\x30\x00";
    let mut switch = Switch::new(); // leg 1 is chosen, none is active
    let mut newest = NewestDescriptor::new();
    if read(key_of_leg_2).is_ok() {
        assert_eq!(rt; switch.pass(4, 2, key_of_leg_2, &mut newest), None); // dropped
        switch.choose(2);
        assert_eq!(rt; switch.pass(4, 2, key_of_leg_2, &mut newest), Some(100)); // its own timestamp
    }
    assert_eq!(rt; switch.active(), Some(2));
}

#[test]
fn frame_numbers_continue_over_a_change_of_leg(rt: HostRuntime) -> Result<(), Fail> {
    // The leg that was active before (0: none), the leg of the packet, the packet, and the forwarded packet.
    let rows: [(u8, u8, &[u8], &[u8]); 9] = [
        // the first leg keeps its frame numbers: 0xfffe and 0xffff
        (
            0,
            1,
            b"\x90\xe0\x00\x02\x00\x00\x00\x07\x11\x11\x11\x11\xbe\xde\x00\x03\x48\xc0\xff\xfe\x80\x00\x3a\x41\x01\x00\x00\x00\x18\x30\x00",
            b"\x90\xe0\x00\x02\x00\x00\x00\x07\x11\x11\x11\x11\xbe\xde\x00\x03\x48\xc0\xff\xfe\x80\x00\x3a\x41\x01\x00\x00\x00\x18\x30\x00",
        ),
        (
            1,
            1,
            b"\x90\x60\x00\x03\x00\x00\x00\x08\x11\x11\x11\x11\xbe\xde\x00\x01\x42\x81\xff\xff\x50\x30\x00",
            b"\x90\x60\x00\x03\x00\x00\x00\x08\x11\x11\x11\x11\xbe\xde\x00\x01\x42\x81\xff\xff\x50\x30\x00",
        ),
        // leg 2 becomes active at its frame 0x1234, which is forwarded as 0xffff plus 1, modulo 65,536
        (
            1,
            2,
            b"\x90\xe0\x00\x04\x00\x00\x00\x64\x44\x44\x44\x44\xbe\xde\x00\x03\x48\xc0\x12\x34\x80\x00\x3a\x41\x01\x00\x00\x00\x18\x30\x00",
            b"\x90\xe0\x00\x04\x00\x00\x00\x64\x44\x44\x44\x44\xbe\xde\x00\x03\x48\xc0\x00\x00\x80\x00\x3a\x41\x01\x00\x00\x00\x18\x30\x00",
        ),
        // later frames of leg 2 keep their distances; here the descriptor has the two-byte form, and follows a CSRC, another element and padding
        (
            2,
            2,
            b"\x91\x60\x00\x05\x00\x00\x00\x65\x44\x44\x44\x44\x01\x02\x03\x04\x10\x00\x00\x03\x07\x02\x04\x03\x00\x04\x03\xc1\x12\x36\x00\x00\x10\x30\x00",
            b"\x91\x60\x00\x05\x00\x00\x00\x65\x44\x44\x44\x44\x01\x02\x03\x04\x10\x00\x00\x03\x07\x02\x04\x03\x00\x04\x03\xc1\x00\x02\x00\x00\x10\x30\x00",
        ),
        // packets without a frame number are unchanged: no header extension, another element, a descriptor of two bytes
        (
            2,
            2,
            b"\x80\x60\x00\x06\x00\x00\x00\x66\x44\x44\x44\x44\x10\x30\x00",
            b"\x80\x60\x00\x06\x00\x00\x00\x66\x44\x44\x44\x44\x10\x30\x00",
        ),
        (
            2,
            2,
            b"\x90\x60\x00\x07\x00\x00\x00\x67\x44\x44\x44\x44\xbe\xde\x00\x01\x52\xc1\x00\x05\x10\x30\x00",
            b"\x90\x60\x00\x07\x00\x00\x00\x67\x44\x44\x44\x44\xbe\xde\x00\x01\x52\xc1\x00\x05\x10\x30\x00",
        ),
        (
            2,
            2,
            b"\x90\x60\x00\x08\x00\x00\x00\x68\x44\x44\x44\x44\xbe\xde\x00\x01\x41\xc0\x12\x00\x10\x30\x00",
            b"\x90\x60\x00\x08\x00\x00\x00\x68\x44\x44\x44\x44\xbe\xde\x00\x01\x41\xc0\x12\x00\x10\x30\x00",
        ),
        // leg 1 becomes active again at its frame 0x0001, after 0x0002 was forwarded
        (
            2,
            1,
            b"\x90\xe0\x00\x09\x00\x00\x00\x09\x11\x11\x11\x11\xbe\xde\x00\x03\x48\xc0\x00\x01\x80\x00\x3a\x41\x01\x00\x00\x00\x18\x30\x00",
            b"\x90\xe0\x00\x09\x00\x00\x00\x09\x11\x11\x11\x11\xbe\xde\x00\x03\x48\xc0\x00\x03\x80\x00\x3a\x41\x01\x00\x00\x00\x18\x30\x00",
        ),
        (
            1,
            1,
            b"\x90\xe0\x00\x0a\x00\x00\x00\x0a\x11\x11\x11\x11\xbe\xde\x00\x01\x42\xc1\x00\x02\x10\x30\x00",
            b"\x90\xe0\x00\x0a\x00\x00\x00\x0a\x11\x11\x11\x11\xbe\xde\x00\x01\x42\xc1\x00\x04\x10\x30\x00",
        ),
    ];
    let mut numbers = FrameNumbers::new();
    let mut packet = PacketBuf::new();
    for (active, leg, came, forwarded) in rows {
        packet.fill(came);
        if read(packet.bytes()).is_ok() {
            let before = if active == 0 { None } else { Some(active) };
            numbers.renumber(4, before, leg, &mut packet);
        }
        assert_eq!(rt; packet.bytes(), forwarded);
    }
    Ok(())
}
