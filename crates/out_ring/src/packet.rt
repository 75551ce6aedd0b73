// One packet, in a buffer that has space for the longest packet.
ghost use Rattle.std.specs.Prelude.{◌≡◌, ◌≤◌, None, length};
ghost use Rattle.rtp_packet.specs.Faults.{first_fault};
ghost use Rattle.out_ring.specs.Packet.{least_packet};

use rtp_packet::plain_packets_read;
use sfu_base::FixedBuf;
use std::marker::Model;

/// The largest length of a packet that is sent, in bytes (own rule).
const MOST_BYTES: usize = 1536;

/// An RTP packet of at most 1,536 bytes, exactly as it was stored. Contracts see the packet as its bytes. No call allocates memory.
#[derive(Debug, Drop)]
pub struct StoredPacket {
    contents: FixedBuf<MOST_BYTES>,
}

impl Model for StoredPacket {
    ghost use Rattle.std.specs.Prelude.{◌≡◌, List, ℕ, None};
    ghost use Rattle.rtp_packet.specs.Faults.{first_fault};

    ghost Value = { List ℕ };

    ghost view = { λ packet. packet.contents };

    ghost invariant = { λ packet. first_fault packet.contents ≡ None };
}

impl StoredPacket {
    /// The shortest RTP packet (RFC 3550, section 5.1): a fixed header of version 2 with all other fields 0, and no payload.
    pub fn new() -> StoredPacket
        ensures { result ≡ least_packet }
    {
        plain_packets_read();
        let mut buf = [0; MOST_BYTES];
        buf[0] = 0x80;
        StoredPacket {
            contents: FixedBuf::of(buf, 12),
        }
    }

    /// Replaces the stored packet with `packet`, an RTP packet of at most 1,536 bytes.
    pub fn fill(&mut self, packet: &[u8])
        requires reads { first_fault packet.now ≡ None }
        requires fits { length packet.now ≤ 1536 }
        ensures { self.new ≡ packet.now }
    {
        self.contents.fill(packet);
    }

    /// The packet's bytes.
    pub fn bytes(&self) -> &[u8]
        ensures bytes { result.now ≡ self.now }
        ensures reads { first_fault self.now ≡ None }
        ensures fits { length self.now ≤ 1536 }
    {
        self.contents.bytes()
    }
}
