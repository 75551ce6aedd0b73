// Wraps a packet for a retransmission stream.

ghost use Rattle.std.specs.Prelude.{◌≡◌, ◌<◌, ◌≤◌, None, length};
ghost use Rattle.rtp_packet.specs.Faults.{first_fault};
ghost use Rattle.rtp_packet.specs.Packet.{IsPacket, Packet};
ghost use Rattle.rtx_stream.specs.Retransmission.{IsRetransmission, retransmitted};

use crate::header::fill_header;
use rtp_packet::read;
use sfu_base::PacketBuf;

/// A stream of retransmission packets, separate from the stream of the original packets (RFC 4588, section 5.3).
#[derive(Clone, Copy, Debug, PartialEq, Eq)]
pub struct Rtx {
    /// The stream's SSRC.
    pub ssrc: u32,
    /// The stream's payload type, below 128.
    pub payload_type: u8,
}

/// Replaces the contents of `out` with the retransmission packet (RFC 4588, section 4) of `packet`, which [`read`](rtp_packet::read) must
/// accept. The retransmission packet has the SSRC and payload type of `rtx` and the sequence number `seq`. The payload is the sequence number
/// of `packet` in two bytes, followed by the payload of `packet`. Padding is left out.
pub fn wrap(packet: &[u8], seq: u16, rtx: &Rtx, out: &mut PacketBuf)
    requires reads { first_fault packet.now ≡ None }
    requires capacity { length packet.now ≤ 2046 }
    requires payload_type { rtx.now.payload_type < 128 }
    ensures form { IsRetransmission packet.now seq rtx.now out.new }
    ensures parts { (p : Packet) → IsPacket packet.now p → IsPacket out.new (retransmitted seq rtx.now p) }
    ensures reads { first_fault out.new ≡ None }
{
    rtp_packet::a_packet_is_read();
    let Ok(original) = read(packet) else {
        unreachable!()
    };
    fill_header(packet, &original, rtx.payload_type, seq, rtx.ssrc, out);
    out.append(&original.seq.to_be_bytes());
    out.append(original.payload);
}
