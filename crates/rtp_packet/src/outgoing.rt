// Rewrites header fields of a packet: sequence number, SSRC and marker, or the timestamp.

ghost use Rattle.std.specs.Prelude.{◌≡◌, ◌<◌, None};
ghost use Rattle.rtp_packet.specs.Faults.{first_fault};
ghost use Rattle.rtp_packet.specs.Packet.{IsPacket, Packet, second_byte};
ghost use Rattle.rtp_packet.specs.Restamped.{at_timestamp, restamped};
ghost use Rattle.rtp_packet.specs.Rewritten.{readdressed, rewritten};

use byteorder::{BigEndian, ByteOrder};
use sfu_base::PacketBuf;

/// Replaces a packet's sequence number, SSRC and marker, and changes no other bit. The packet must be one that [`read`](crate::read) accepts. `read`
/// accepts the changed packet too.
#[tactic(auto, using(crate::proofs::Faultless::header_there))]
pub fn rewrite(packet: &mut PacketBuf, seq: u16, ssrc: u32, marker: bool)
    requires { first_fault packet.old ≡ None }
    ensures bytes { packet.new ≡ rewritten seq ssrc marker packet.old }
    ensures reads { first_fault packet.new ≡ None }
    ensures parts { (p : Packet) → IsPacket packet.old p → IsPacket packet.new (readdressed seq ssrc marker p) }
{
    let payload_type = packet.bytes()[1] % 128;
    let mut front = [marked(marker, payload_type), 0, 0];
    BigEndian::write_u16(&mut front[1..], seq);
    packet.overwrite(1, &front);
    let mut source = [0u8; 4];
    BigEndian::write_u32(&mut source, ssrc);
    packet.overwrite(8, &source);
}

/// Replaces a packet's timestamp, and changes no other bit. The timestamp is in ticks of the media's clock. The packet must be one that
/// [`read`](crate::read) accepts. `read` accepts the changed packet too.
#[tactic(auto, using(crate::proofs::Faultless::header_there))]
pub fn restamp(packet: &mut PacketBuf, timestamp: u32)
    requires { first_fault packet.old ≡ None }
    ensures bytes { packet.new ≡ restamped timestamp packet.old }
    ensures reads { first_fault packet.new ≡ None }
    ensures parts { (p : Packet) → IsPacket packet.old p → IsPacket packet.new (at_timestamp timestamp p) }
{
    let mut field = [0u8; 4];
    BigEndian::write_u32(&mut field, timestamp);
    packet.overwrite(4, &field);
}

/// The second byte of a header: the marker bit, then the seven bits of the payload type.
fn marked(marker: bool, payload_type: u8) -> u8
    requires { payload_type < 128 }
    ensures { result ≡ second_byte marker payload_type }
{
    if marker {
        128 + payload_type
    } else {
        payload_type
    }
}
