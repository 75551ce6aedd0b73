// The parts of a packet, and the function that finds them.

ghost use Rattle.std.specs.Prelude.{◌≡◌, true, false, None, Some, IfOk, IfErr};
ghost use Rattle.rtp_packet.specs.Faults.{first_fault, has_bad_padding, lacks_extension};
ghost use Rattle.rtp_packet.specs.Fields.{behind_extension, block_in, payload_in, profile_in};
ghost use Rattle.rtp_packet.specs.Packet.{IsPacket, Packet, packet_of};
ghost use Rattle.rtp_packet.specs.Seen.{parts};

use byteorder::{BigEndian, ByteOrder};
use sfu_base::RtpFault;

/// The parts of an RTP packet (RFC 3550, section 5.1). `block` and `payload` are slices of the packet's bytes. If the packet has no header extension,
/// `profile` is `None` and `block` is empty. There are no fields for the CSRC identifiers and the padding.
#[derive(Clone, Copy, Debug)]
pub struct Rtp<'a> {
    /// The marker bit.
    pub marker: bool,
    /// The payload type, below 128.
    pub payload_type: u8,
    /// The sequence number.
    pub seq: u16,
    /// The timestamp, in ticks of the media's clock.
    pub timestamp: u32,
    /// The synchronization source (SSRC).
    pub ssrc: u32,
    /// The 16-bit profile field of the header extension.
    pub profile: Option<u16>,
    /// The data of the header extension: the bytes after its profile and length fields. The number of these bytes is a multiple of 4.
    pub block: &'a [u8],
    /// The bytes between the header and the padding.
    pub payload: &'a [u8],
}

/// The length of the fixed header, in bytes.
const FIXED_HEADER: usize = 12;

/// Reads a packet (RFC 3550, section 5.1), or returns the first of these faults that applies. `Short`: there are fewer than 12 bytes. `Version`: the
/// version isn't 2. `Csrc`: the bytes end within the CSRC list. `Extension`: the bytes end within the header extension. `Padding`: the padding count is
/// 0, or more than the number of bytes after the header.
pub fn read<'a>(bytes: &'a [u8]) -> Result<Rtp<'a>, RtpFault>
    ensures found { IfOk result (λ r. IsPacket bytes.now (parts r)) }
    ensures none { IfErr result (λ _. (p : Packet) → IsPacket bytes.now p → ⊥) }
    ensures fault { IfErr result (λ e. first_fault bytes.now ≡ Some e) }
    ensures ok { IfOk result (λ _. first_fault bytes.now ≡ None) }
    ensures parts { IfOk result (λ r. parts r ≡ packet_of bytes.now) }
{
    located(bytes)
}

/// Finds the parts of a packet from the fields of its header, or returns the first fault that applies.
#[tactic(auto, unfolding(crate::specs::Faults::first_fault))]
fn located<'a>(bytes: &'a [u8]) -> Result<Rtp<'a>, RtpFault>
    ensures parts { IfOk result (λ r. parts r ≡ packet_of bytes.now) }
    ensures ok { IfOk result (λ _. first_fault bytes.now ≡ None) }
    ensures fault { IfErr result (λ e. first_fault bytes.now ≡ Some e) }
{
    if bytes.len() < FIXED_HEADER {
        return Err(RtpFault::Short);
    }
    let first = bytes[0];
    let second = bytes[1];
    if first / 64 != 2 {
        return Err(RtpFault::Version);
    }
    let csrc_end = FIXED_HEADER + 4 * (first % 16) as usize;
    if bytes.len() < csrc_end {
        return Err(RtpFault::Csrc);
    }
    let (profile, block, rest) = extension(first / 16 % 2 == 1, &bytes[csrc_end..])?;
    let payload = unpadded(first / 32 % 2 == 1, rest)?;
    Ok(Rtp {
        marker: second / 128 == 1,
        payload_type: second % 128,
        seq: BigEndian::read_u16(&bytes[2..]),
        timestamp: BigEndian::read_u32(&bytes[4..]),
        ssrc: BigEndian::read_u32(&bytes[8..]),
        profile,
        block,
        payload,
    })
}

/// Splits the bytes after the CSRC list. Returns the header extension's profile, its data, and the bytes after the extension. Without an extension, the
/// profile is `None` and the data slice is empty. Returns `Extension` if the bytes end within the extension.
fn extension<'a>(
    extended: bool,
    rest: &'a [u8],
) -> Result<(Option<u16>, &'a [u8], &'a [u8]), RtpFault>
    ensures profile { IfOk result (λ x. x.0 ≡ profile_in extended rest.now) }
    ensures block { IfOk result (λ x. x.1.now ≡ block_in extended rest.now) }
    ensures behind { IfOk result (λ x. x.2.now ≡ behind_extension extended rest.now) }
    ensures ok { IfOk result (λ _. lacks_extension extended rest.now ≡ false) }
    ensures fault { IfErr result (λ e. (e ≡ RtpFault.Extension) × (lacks_extension extended rest.now ≡ true)) }
{
    if !extended {
        return Ok((None, &[], rest));
    }
    if rest.len() < 4 {
        return Err(RtpFault::Extension);
    }
    let end = 4 + 4 * BigEndian::read_u16(&rest[2..]) as usize;
    if rest.len() < end {
        return Err(RtpFault::Extension);
    }
    Ok((Some(BigEndian::read_u16(rest)), &rest[4..end], &rest[end..]))
}

/// Returns the payload: the bytes after the header, without the padding. Returns `Padding` if the padding count is 0, or more than the number of bytes
/// after the header.
fn unpadded<'a>(padded: bool, rest: &'a [u8]) -> Result<&'a [u8], RtpFault>
    ensures payload { IfOk result (λ x. x.now ≡ payload_in padded rest.now) }
    ensures ok { IfOk result (λ _. has_bad_padding padded rest.now ≡ false) }
    ensures fault { IfErr result (λ e. (e ≡ RtpFault.Padding) × (has_bad_padding padded rest.now ≡ true)) }
{
    if !padded {
        return Ok(rest);
    }
    let count = rest.last().copied().unwrap_or(0) as usize;
    if count == 0 || rest.len() < count {
        return Err(RtpFault::Padding);
    }
    Ok(&rest[..rest.len() - count])
}
