// Replaces the mask (active_decode_targets_bitmask) in a packet's dependency descriptor.

ghost use Rattle.std.specs.Prelude.{◌≡◌, ◌≤◌, ◌+◌, ◌*◌, None, OnErr, OnOk, Some, drop, length};
ghost use Rattle.std.specs.Option.{option_copied};
ghost use Rattle.sfu_base.specs.Bytes.{AreBytes};
ghost use Rattle.rtp_packet.specs.Faults.{first_fault};
ghost use Rattle.rtp_packet.specs.Fields.{behind_header, csrc_count};
ghost use Rattle.packet_format.specs.Remasked.{at_most, new_value, remasked, with_extension};

use crate::look::descriptor_bytes;
use dd_descriptor::{RemaskBuf, remask_lowest};
use dd_structure::Structure;
use sfu_base::{NoFit, PacketBuf};

/// The length of the fixed header, in bytes (RFC 3550, section 5.1).
const FIXED_HEADER: usize = 12;

/// The length of a CSRC identifier, in bytes.
const CSRC: usize = 4;

/// The size of the header extension's first two fields (profile and length), in bytes (RFC 3550, section 5.3.1).
const EXTENSION_HEADER: usize = 4;

/// The largest length of a packet with a new mask, in bytes.
const MOST: usize = 1536;

/// Replaces the mask (active_decode_targets_bitmask) in packets. A remasker reuses its working memory of some 12 KB. The memory is cleared once, and
/// not for each packet.
#[derive(Drop)]
pub struct Remasker {
    buf: RemaskBuf,
    value: PacketBuf,
    extension: PacketBuf,
}

impl Remasker {
    ghost use Rattle.std.specs.Prelude.{◌≡◌, None, OnErr, OnOk, Some};
    ghost use Rattle.std.specs.Option.{option_copied};
    ghost use Rattle.rtp_packet.specs.Faults.{first_fault};
    ghost use Rattle.packet_format.specs.Remasked.{remasked};

    /// Returns a remasker that can be used for any packet.
    pub fn new() -> Remasker {
        Remasker {
            buf: RemaskBuf::new(),
            value: PacketBuf::new(),
            extension: PacketBuf::new(),
        }
    }

    /// Replaces the contents of `out` with a copy of the packet. The copy has `mask` in its dependency descriptor (AV1 RTP payload format, Appendix
    /// A). Bit i of the mask says whether decode target i is active. Bit 0 is the lowest bit. Bits above that of the last decode target are ignored.
    /// The descriptor is the value of the first header extension element with the id `id` (RFC 8285). The elements keep their order. If the new
    /// descriptor has more than 16 bytes, the one-byte form of the header extension becomes the two-byte form. The fixed header, CSRC identifiers,
    /// payload and padding (RFC 3550, section 5.1) are copied unchanged. Returns `NoFit` and leaves `out` unchanged if there is no descriptor, or if
    /// the descriptor can't be parsed with `force` as the structure in force. The same happens if the new descriptor would be longer than 255 bytes,
    /// or the new packet longer than 1,536 bytes.
    ///
    /// `packet` must be an RTP packet.
    pub fn remask(
        &mut self,
        packet: &[u8],
        id: u8,
        force: Option<&Structure>,
        mask: u32,
        out: &mut PacketBuf,
    ) -> Result<(), NoFit>
        requires { first_fault packet.now ≡ None }
        ensures ok { OnOk result (remasked id (option_copied force.entry) mask packet.now ≡ Some out.new) }
        ensures err { OnErr result (remasked id (option_copied force.entry) mask packet.now ≡ None) }
        ensures unchanged { OnErr result (out.new ≡ out.old) }
    {
        let Ok(parts) = rtp_packet::read(packet) else {
            unreachable!()
        };
        let Some(profile) = parts.profile else {
            return Err(NoFit);
        };
        let Some(descriptor) = descriptor_bytes(&parts, id) else {
            return Err(NoFit);
        };
        fill_value(descriptor, force, mask, &mut self.buf, &mut self.value)?;
        let value = self.value.bytes();
        self.extension.fill(&[]);
        rtp_extension::reblock(profile, parts.block, id, value, &mut self.extension)?;
        let old = EXTENSION_HEADER + parts.block.len();
        fill_packet(packet, old, self.extension.bytes(), out)
    }
}

impl Default for Remasker {
    fn default() -> Remasker {
        Remasker::new()
    }
}

/// Replaces the contents of `out` with a copy of the descriptor. The copy has the mask `mask`.
fn fill_value(
    descriptor: &[u8],
    force: Option<&Structure>,
    mask: u32,
    buf: &mut RemaskBuf,
    out: &mut PacketBuf,
) -> Result<(), NoFit>
    ensures ok { OnOk result (at_most 255 (new_value (option_copied force.entry) mask (Some descriptor.now)) ≡ Some out.new) }
    ensures err { OnErr result (at_most 255 (new_value (option_copied force.entry) mask (Some descriptor.now)) ≡ None) }
{
    let result = remask_lowest(descriptor, force, mask, buf, out);
    lemma_are_bytes(out.bytes());
    result
}

/// A lemma, which does nothing at run time: each item of a byte slice is below 256.
fn lemma_are_bytes(bytes: &[u8])
    ensures { AreBytes bytes.now }
{
    let _ = bytes;
}

/// Copies the packet to `out`, but with `extension` as its header extension. The packet's own header extension has `old` bytes.
fn fill_packet(
    packet: &[u8],
    old: usize,
    extension: &[u8],
    out: &mut PacketBuf,
) -> Result<(), NoFit>
    requires there { 12 + 4 * csrc_count packet.now + old ≤ length packet.now }
    requires behind { behind_header packet.now ≡ drop (12 + 4 * csrc_count packet.now + old) packet.now }
    ensures ok { OnOk result (at_most 1536 (Some (with_extension extension.now packet.now)) ≡ Some out.new) }
    ensures err { OnErr result (at_most 1536 (Some (with_extension extension.now packet.now)) ≡ None) }
    ensures unchanged { OnErr result (out.new ≡ out.old) }
{
    let front = FIXED_HEADER + CSRC * (packet[0] % 16) as usize;
    let behind = &packet[front + old..];
    if front + extension.len() + behind.len() > MOST {
        return Err(NoFit);
    }
    out.fill(&packet[..front]);
    out.append(extension);
    out.append(behind);
    Ok(())
}
