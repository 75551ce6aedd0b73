// Rebuilds a packet's header with other fields.

ghost use Rattle.std.specs.Prelude.{◌≡◌, ◌+◌, ◌<◌, ◌≤◌, ℕ, Bool, None, false, length};
ghost use Rattle.rtp_packet.specs.Faults.{first_fault};
ghost use Rattle.rtp_packet.specs.Packet.{IsPacket, Packet, extension_bytes, first_byte, second_byte};
ghost use Rattle.rtp_packet.specs.Seen.{parts};
ghost use Rattle.rtx_stream.specs.Bare.{header_bytes};
ghost use Rattle.rtx_stream.specs.Retransmission.{with_address};

use rtp_packet::Rtp;
use sfu_base::PacketBuf;

/// The length of the fixed header, in bytes (RFC 3550, section 5.1).
const FIXED_HEADER: usize = 12;

/// The length of the header extension's profile and length fields, in bytes (RFC 3550, section 5.3.1).
const EXTENSION_HEADER: usize = 4;

/// Replaces the contents of `out` with the packet's header. In `out` the padding bit is 0, and the payload type, sequence number and SSRC are the
/// given ones. `read` has the parts that were read from the packet.
pub(crate) fn fill_header(
    packet: &[u8],
    read: &Rtp<'_>,
    payload_type: u8,
    seq: u16,
    ssrc: u32,
    out: &mut PacketBuf,
)
    requires is_read { IsPacket packet.now (parts read.now) }
    requires capacity { length packet.now ≤ 2048 }
    requires payload_type { payload_type < 128 }
    ensures header { (is : IsPacket packet.now (parts read.now))
        → out.new ≡ header_bytes is.csrc_words is.csrcs is.block_words (with_address payload_type seq ssrc (parts read.now)) }
    ensures shorter { length out.new + length read.now.payload.now ≤ length packet.now }
{
    out.fill(&[
        without_padding_bit(packet[0]),
        marked(read.marker, payload_type),
    ]);
    out.append(&seq.to_be_bytes());
    out.append(&read.timestamp.to_be_bytes());
    out.append(&ssrc.to_be_bytes());
    out.append(&packet[FIXED_HEADER..header_len(packet, read)]);
}

/// The length of the whole header in bytes, with the CSRC list and the header extension.
fn header_len(packet: &[u8], read: &Rtp<'_>) -> usize
    requires { IsPacket packet.now (parts read.now) }
    ensures { (is : IsPacket packet.now (parts read.now))
        → result ≡ 12 + length is.csrcs + length (extension_bytes read.now.profile is.block_words read.now.block.now) }
{
    let csrcs = 4 * (packet[0] % 16) as usize;
    match read.profile {
        Some(_) => FIXED_HEADER + csrcs + EXTENSION_HEADER + read.block.len(),
        None => FIXED_HEADER + csrcs,
    }
}

/// The first byte of a header, with its padding bit cleared.
fn without_padding_bit(first: u8) -> u8
    ensures { (padded extended : Bool) (csrcs : ℕ) → csrcs < 16 → first ≡ first_byte padded extended csrcs → result ≡ first_byte false extended csrcs }
{
    if first / 32 % 2 == 1 {
        first - 32
    } else {
        first
    }
}

/// The second byte of a header: the marker bit, then the seven bits of the payload type.
fn marked(marker: bool, payload_type: u8) -> u8
    requires { payload_type < 128 }
    ensures { result ≡ second_byte marker payload_type }
{
    if marker {
        128 + payload_type
    } else {
        payload_type
    }
}
