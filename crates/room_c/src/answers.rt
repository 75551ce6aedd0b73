// Writes the bytes or the sequence numbers of a reply to C's buffer.
ghost use Rattle.std.specs.Prelude.{◌≡◌, ◌<◌, ◌≤◌, IfErr, Ok, drop, length, take};
ghost use Rattle.sfu_base.specs.declared.call.Reply.TheVariants as reply;
ghost use Rattle.simulcast.specs.Bundles.{IsBound, unless_bound};
ghost use Rattle.room_c.specs.Reading.{answer_in, reply_in};
ghost use Rattle.room_c.specs.declared.code.Code.TheVariants as code;
ghost use Rattle.room_c.specs.Numbers.{answer_reply, bytes_written, numbers_written, one_of, plain_of};

use crate::code::Code;
use crate::plain_reply::PlainReply;
use sfu_base::{PacketBuf, Reply, Scratch};
use simulcast::BundleFault;

/// The minimum length of a buffer for a packet, in bytes.
pub const PACKET_ROOM: usize = 2048;

/// The minimum length of a buffer for sequence numbers, in items.
pub const NAMES_ROOM: usize = 1024;

/// Writes a packet to the start of `out`, which must have at least 2,048 bytes. Returns `Packet` with the packet's length.
pub fn give_packet(packet: &PacketBuf, out: &mut [u8]) -> PlainReply
    requires { 2048 ≤ length out.old }
    ensures reply_is { result ≡ one_of code.Packet (length packet.now) }
    ensures gives { take result.first out.new ≡ packet.now }
    ensures rest { drop (bytes_written result) out.new ≡ drop (bytes_written result) out.old }
{
    let bytes = packet.bytes();
    out[..bytes.len()].copy_from_slice(bytes);
    PlainReply::with(Code::Packet, bytes.len() as u64)
}

/// If the reply of a room is a packet, writes the packet to the start of `out`. `out` must have at least 2,048 bytes. Returns the reply as a [`PlainReply`].
#[tactic(auto, unfolding(crate::specs::Numbers::plain_of))]
pub fn give_bytes(answer: &Reply, scratch: &Scratch, out: &mut [u8]) -> PlainReply
    requires { 2048 ≤ length out.old }
    ensures read_back { reply_in result ≡ answer.now }
    ensures code { result.code < 49 }
    ensures exact { result ≡ plain_of scratch.now answer.now }
    ensures gives { answer.now ≡ reply.Packet → take result.first out.new ≡ scratch.now.packet }
    ensures rest { drop (bytes_written result) out.new ≡ drop (bytes_written result) out.old }
    ensures length { length out.new ≡ length out.old }
{
    match answer {
        Reply::Packet => give_packet(&scratch.packet, out),
        _ => PlainReply::of(answer, scratch),
    }
}

/// Does the same as `give_answer`, but for the results of `Bundles::take`: `bound` is the number of the bundle that refused the take, or `None`.
#[inline(always)]
pub fn give_taken(
    bound: Option<u32>,
    answer: &Reply,
    scratch: &Scratch,
    out: &mut [u8],
) -> PlainReply
    requires space { 2048 ≤ length out.old }
    ensures read_back { answer_in result ≡ unless_bound bound answer.now }
    ensures exact { result ≡ answer_reply scratch.now (unless_bound bound answer.now) }
    ensures gives { unless_bound bound answer.now ≡ Ok reply.Packet → take result.first out.new ≡ scratch.now.packet }
    ensures rest { drop (bytes_written result) out.new ≡ drop (bytes_written result) out.old }
    ensures length { length out.new ≡ length out.old }
{
    match bound {
        None => give_bytes(answer, scratch, out),
        Some(bundle) => PlainReply::of_fault(BundleFault::Bound { bundle }),
    }
}

/// If the answer of a room with bundles is a packet, writes the packet to the start of `out`. `out` must have at least 2,048 bytes. Returns the answer as a
/// [`PlainReply`].
pub fn give_answer(
    answer: Result<Reply, BundleFault>,
    scratch: &Scratch,
    out: &mut [u8],
) -> PlainReply
    requires space { 2048 ≤ length out.old }
    requires only { IfErr answer IsBound }
    ensures read_back { answer_in result ≡ answer }
    ensures exact { result ≡ answer_reply scratch.now answer }
    ensures gives { answer ≡ Ok reply.Packet → take result.first out.new ≡ scratch.now.packet }
    ensures rest { drop (bytes_written result) out.new ≡ drop (bytes_written result) out.old }
    ensures length { length out.new ≡ length out.old }
{
    match answer {
        Ok(reply) => give_bytes(&reply, scratch, out),
        Err(why) => PlainReply::of_fault(why),
    }
}

/// If the answer of a room with bundles is a list of sequence numbers, writes these numbers to the start of `out`. `out` must have at least 1,024 items.
/// Returns the answer as a [`PlainReply`].
pub fn give_numbers(
    answer: Result<Reply, BundleFault>,
    scratch: &Scratch,
    out: &mut [u16],
) -> PlainReply
    requires space { 1024 ≤ length out.old }
    requires only { IfErr answer IsBound }
    ensures read_back { answer_in result ≡ answer }
    ensures exact { result ≡ answer_reply scratch.now answer }
    ensures gives { answer ≡ Ok reply.Names → take result.first out.new ≡ scratch.now.names }
    ensures rest { drop (numbers_written result) out.new ≡ drop (numbers_written result) out.old }
    ensures length { length out.new ≡ length out.old }
{
    match answer {
        Ok(reply) => give_named(&reply, scratch, out),
        Err(why) => PlainReply::of_fault(why),
    }
}

// Does the same as `give_numbers`, but for a `Reply`, which is never a `BundleFault`.
#[tactic(auto, unfolding(crate::specs::Numbers::plain_of))]
fn give_named(answer: &Reply, scratch: &Scratch, out: &mut [u16]) -> PlainReply
    requires { 1024 ≤ length out.old }
    ensures read_back { reply_in result ≡ answer.now }
    ensures code { result.code < 49 }
    ensures exact { result ≡ plain_of scratch.now answer.now }
    ensures gives { answer.now ≡ reply.Names → take result.first out.new ≡ scratch.now.names }
    ensures rest { drop (numbers_written result) out.new ≡ drop (numbers_written result) out.old }
    ensures length { length out.new ≡ length out.old }
{
    match answer {
        Reply::Names => {
            let numbers = scratch.names.numbers();
            out[..numbers.len()].copy_from_slice(numbers);
            PlainReply::with(Code::Names, numbers.len() as u64)
        }
        _ => PlainReply::of(answer, scratch),
    }
}
