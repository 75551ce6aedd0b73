// Recovers the packet that a retransmission packet carries.

ghost use Rattle.std.specs.Prelude.{◌≡◌, ◌<◌, ◌≤◌, ℕ, List, None, Some, IsOk, IfErr, OnErr, OnOk, length};
ghost use Rattle.rtp_packet.specs.Fields.{payload_type_of, ssrc_of};
ghost use Rattle.rtx_stream.specs.Bare.{IsBare};
ghost use Rattle.rtx_stream.specs.Faults.{unwrap_fault};
ghost use Rattle.rtx_stream.specs.Retransmission.{IsOriginal, IsRetransmission};
ghost use Rattle.rtx_stream.specs.declared.retransmission.Rtx.{Rtx};

use crate::fault::RtxFault;
use crate::header::fill_header;
use byteorder::{BigEndian, ByteOrder};
use rtp_packet::read;
use sfu_base::PacketBuf;

/// The length of the original sequence number, in bytes.
const ORIGINAL_SEQUENCE: usize = 2;

/// Replaces the contents of `out` with the original packet that a retransmission packet carries (RFC 4588, section 4). The original gets this
/// SSRC and payload type, and has no padding. Returns `Unreadable` if the bytes aren't an RTP packet, and `Cut` if the payload has fewer than
/// two bytes. An error leaves `out` unchanged.
pub fn unwrap(
    bytes: &[u8],
    ssrc: u32,
    payload_type: u8,
    out: &mut PacketBuf,
) -> Result<(), RtxFault>
    requires capacity { length bytes.now ≤ 2048 }
    requires payload_type { payload_type < 128 }
    ensures ok { OnOk result (unwrap_fault bytes.now ≡ None) }
    ensures fault { IfErr result (λ e. unwrap_fault bytes.now ≡ Some e) }
    ensures original { OnOk result (IsOriginal bytes.now ssrc payload_type out.new) }
    // if these bytes came from wrapping a packet, the result is that packet without its padding
    ensures back { (packet : List ℕ) (seq : ℕ) (rtx : Rtx) → IsRetransmission packet seq rtx bytes.now
        → ssrc_of packet ≡ ssrc → payload_type_of packet ≡ payload_type → OnOk result (IsBare packet out.new) }
    ensures err { OnErr result (out.new ≡ out.old) }
{
    rtp_packet::a_packet_is_read();
    let carried = read(bytes).map_err(RtxFault::Unreadable)?;
    if carried.payload.len() < ORIGINAL_SEQUENCE {
        return Err(RtxFault::Cut);
    }
    let (seq, payload) = carried.payload.split_at(ORIGINAL_SEQUENCE);
    fill_header(
        bytes,
        &carried,
        payload_type,
        BigEndian::read_u16(seq),
        ssrc,
        out,
    );
    out.append(payload);
    Ok(())
}
