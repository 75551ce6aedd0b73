// The reply to a take from a leg.
ghost use Rattle.std.specs.Prelude.{◌≡◌, None, true, false};
ghost use Rattle.sfu_base.specs.Answer.{is_starved};
ghost use Rattle.sfu_base.specs.declared.call.Reply.TheVariants as reply;
ghost use Rattle.rtp_packet.specs.Faults.{first_fault};
ghost use Rattle.rtp_packet.specs.Fields.{marker_of};

use sfu_base::{Refusal, Reply};

/// Returns whether a reply says that the call ran out of memory.
pub fn is_starved(reply: &Reply) -> bool
    ensures { result ≡ is_starved reply.now }
{
    matches!(reply, Reply::Refused(Refusal::NoMemory))
}

/// Returns whether a reply is a packet.
pub fn is_packet(answer: &Reply) -> bool
    ensures packet { result ≡ true → answer.now ≡ reply.Packet }
    ensures none { result ≡ false → answer.now ≡ reply.Packet → ⊥ }
{
    matches!(answer, Reply::Packet)
}

/// Returns whether a packet's marker bit is set. This bit is the highest bit of the packet's second byte (RFC 3550, section 5.1).
#[tactic(auto, using(rtp_packet::proofs::Faultless::header_there))]
pub fn marker(packet: &[u8]) -> bool
    requires { first_fault packet.now ≡ None }
    ensures { result ≡ marker_of packet.now }
{
    packet[1] >= 0x80
}
