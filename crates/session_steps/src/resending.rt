// Retransmissions: packets as they were first sent, or in a separate stream (RFC 4588, section 4).
ghost use Rattle.std.specs.Prelude.{◌≡◌, ◌<◌, ℕ, IfSome};
ghost use Rattle.sfu_base.specs.Answer.{answer_of};
ghost use Rattle.rtx_stream.specs.Retransmission.{IsRetransmission};
ghost use Rattle.session_steps.specs.Datagrams.{IsOne};
ghost use Rattle.session_steps.specs.Sessions.{Doing, resends, resent};
ghost use Rattle.session_steps.specs.Stepping.{CanBeWrapped, GoesOn};

use crate::session::Output;
use rtx_stream::{Rtx, wrap};
use sfu_base::{PacketBuf, Reply, Scratch};

/// Replaces a packet by its retransmission on the stream `rtx`, with the sequence number `number` there. Out of line: the second buffer is then
/// cleared only when it is used.
#[inline(never)]
fn wrap_over(rtx: Rtx, number: u16, packet: &mut PacketBuf)
    requires payload_type { rtx.payload_type < 128 }
    requires sendable { CanBeWrapped packet.old }
    ensures { IsRetransmission packet.old number rtx packet.new }
{
    let mut wrapped = PacketBuf::new();
    wrap(packet.bytes(), number, &rtx, &mut wrapped);
    *packet = wrapped;
}

/// Replaces a packet by its retransmission. With an RTX stream, that is the packet wrapped with the sequence number `number`. Without one, it is the
/// packet as it was first sent.
pub(crate) fn make_retransmission(rtx: Option<Rtx>, number: u16, packet: &mut PacketBuf)
    requires payload_type { IfSome rtx (λ stream. stream.payload_type < 128) }
    requires sendable { CanBeWrapped packet.old }
    ensures { IsOne (resent rtx number packet.old) packet.new }
{
    if let Some(stream) = rtx {
        wrap_over(stream, number, packet);
    }
}

/// If a resend call returned a packet, outputs the retransmission of this packet. `number` is the sequence number of the next retransmission. Each
/// output increases `number` by 1, modulo 65,536.
pub(crate) fn resend(
    rtx: Option<Rtx>,
    number: &mut u16,
    reply: Reply,
    scratch: &mut Scratch,
) -> Output
    requires payload_type { IfSome rtx (λ stream. stream.payload_type < 128) }
    requires sendable { reply ≡ Reply.Packet → CanBeWrapped scratch.old.packet }
    ensures { (next : ℕ → Doing) → GoesOn (resends rtx number.old (answer_of reply scratch.old.packet scratch.old.names) next) (next number.new) scratch.new.packet result }
{
    let Reply::Packet = reply else {
        return Output::Nothing;
    };
    make_retransmission(rtx, *number, &mut scratch.packet);
    *number = number.wrapping_add(1);
    Output::Packet
}
