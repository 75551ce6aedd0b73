// Whether a packet says which decode targets are active.

ghost use Rattle.std.specs.Prelude.{◌≡◌, None};
ghost use Rattle.rtp_packet.specs.Faults.{first_fault};
ghost use Rattle.packet_format.specs.CarriedMask.{carries_mask};

use crate::look::descriptor_bytes;

/// The length of the mandatory descriptor fields, in bytes (AV1 RTP payload format, Appendix A).
const MANDATORY: usize = 3;

/// The descriptor's fourth byte is at least this value if and only if one or both of its two highest bits are set. These bits are
/// template_dependency_structure_present_flag and active_decode_targets_present_flag.
const STRUCTURE_OR_MASK: u8 = 0x40;

/// Returns whether the packet's dependency descriptor carries a structure or a mask (AV1 RTP payload format, Appendix A, extended_descriptor_fields).
/// `packet` must be an RTP packet.
pub fn carries_mask(packet: &[u8], id: u8) -> bool
    requires { first_fault packet.now ≡ None }
    ensures { result ≡ carries_mask id packet.now }
{
    let Ok(parts) = rtp_packet::read(packet) else {
        unreachable!()
    };
    match descriptor_bytes(&parts, id) {
        Some(descriptor) => descriptor.len() > MANDATORY && descriptor[3] >= STRUCTURE_OR_MASK,
        None => false,
    }
}
