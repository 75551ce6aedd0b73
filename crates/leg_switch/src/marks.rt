// Two properties of a packet of a leg: whether it is a key start, and whether it ends its frame.
ghost use Rattle.std.specs.Prelude.{◌≡◌, None};
ghost use Rattle.rtp_packet.specs.Faults.{first_fault};
ghost use Rattle.leg_switch.specs.Marks.{ends_frame, starts_key};

use dd_descriptor::{NewestDescriptor, edges};
use packet_format::{begins_epoch, descriptor_bytes};

/// Whether a packet is a key start, the first packet of a key frame (AV1 RTP payload format, Appendix A). The descriptor of a key start carries a
/// template dependency structure, has start_of_frame set, and has no references. The contents of `newest` are unspecified afterwards.
pub fn starts_key(packet: &[u8], id: u8, newest: &mut NewestDescriptor) -> bool
    requires { first_fault packet.now ≡ None }
    ensures { result ≡ starts_key id packet.now }
{
    let Ok(parts) = rtp_packet::read(packet) else {
        unreachable!()
    };
    let Some(descriptor) = descriptor_bytes(&parts, id) else {
        return false;
    };
    match newest.read(descriptor, None) {
        Ok(()) => begins_epoch(newest.get()),
        Err(_) => false,
    }
}

/// Whether a packet ends its frame: whether end_of_frame, the second bit of the packet's descriptor, is set (AV1 RTP payload format, Appendix A).
pub fn ends_frame(packet: &[u8], id: u8) -> bool
    requires { first_fault packet.now ≡ None }
    ensures { result ≡ ends_frame id packet.now }
{
    let Ok(parts) = rtp_packet::read(packet) else {
        unreachable!()
    };
    let Some(descriptor) = descriptor_bytes(&parts, id) else {
        return false;
    };
    match edges(descriptor) {
        Ok(edges) => edges.end,
        Err(_) => false,
    }
}
