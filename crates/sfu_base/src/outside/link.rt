// Sends and receives datagrams (own rule).
ghost use Rattle.std.specs.Prelude.{◌≡◌, ℕ, Option};
ghost use Rattle.sfu_base.specs.Faults.{HasCause};
ghost use Rattle.sfu_base.specs.Links.{FillsOnlyWhere, Traffic, after_receive, after_send};

use crate::{Failed, PacketBuf};

/// Sends datagrams to one peer, and receives datagrams from it.
pub trait Link {
    /// The link's record: the results of its receives, and the datagrams that it sent, both in order. `None` if the link has no record.
    ghost traffic: { Self → Option Traffic };

    /// The link's name: the number of links that the same [`Ports`](crate::Ports) bound before this link. No call changes the name, so it identifies
    /// the link among the links of these ports.
    ghost name: { Self → ℕ };

    /// How many calls have failed. The count stops at 2^64 - 1.
    ghost faults: { Self → ℕ };

    /// Receives a datagram, if one is there. `Ok(true)`: the datagram replaced the buffer's contents. If the datagram is longer than 2,048 bytes,
    /// only its first 2,048 bytes did. `Ok(false)`: no datagram was there. Only `Ok(true)` changes the buffer. The result is appended to the record,
    /// unless the call failed.
    fn receive(&mut self, buf: &mut PacketBuf) -> Result<bool, Failed>
        ensures buffer { FillsOnlyWhere result buf.old buf.new }
        ensures traffic { traffic self.new ≡ after_receive result buf.new (traffic self.old) }
        ensures name { name self.new ≡ name self.old }
        ensures cause { HasCause (faults self.old) (faults self.new) result };

    /// Sends the packet's bytes as one datagram, and appends the datagram to the record. After `Failed` no datagram was sent, and the record is
    /// unchanged.
    fn send(&mut self, packet: &PacketBuf) -> Result<(), Failed>
        ensures traffic { traffic self.new ≡ after_send result packet.now (traffic self.old) }
        ensures name { name self.new ≡ name self.old }
        ensures cause { HasCause (faults self.old) (faults self.new) result };
}
