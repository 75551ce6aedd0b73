// Wraps and unwraps retransmission packets, without a session or a room (RFC 4588, section 4).
ghost use Rattle.std.specs.Prelude.{◌≡◌, IfSome, None, drop, length, take};
ghost use Rattle.rtx_stream.specs.Retransmission.{IsOriginal, IsRetransmission};
ghost use Rattle.room_c.specs.declared.code.Code.TheVariants.{Packet};
ghost use Rattle.room_c.specs.Numbers.{bytes_written, one_of};
ghost use Rattle.room_c.specs.Wrapping.{unwrap_refusal, wrap_refusal};

use crate::answers::{PACKET_ROOM, give_packet};
use crate::code::Code;
use crate::plain_reply::PlainReply;
use rtp_packet::read;
use rtx_stream::{Rtx, RtxFault, unwrap, wrap};
use sfu_base::{PacketBuf, Refusal};

/// The maximum length of a packet that can be wrapped, in bytes.
const MOST_WRAPPED: usize = 2046;

/// The value of `first` in an `Unreadable` reply if a retransmission packet has no original sequence number. Its payload then has fewer than two bytes.
const NO_ORIGINAL: u64 = 5;

/// The number of payload types: a payload type is 0 to 127.
const PAYLOAD_TYPES: u8 = 128;

/// Wraps a packet for a retransmission stream, as `wrap` of `rtx_stream` does. The wrapped packet has the sequence number `number` on this stream. Returns
/// `Packet`, and writes the wrapped packet to the start of `out`. If the call fails, it writes nothing, and returns the first of the following codes that
/// applies. `NoSpace`: `out` has fewer than 2,048 bytes. `TooLong`: the packet has more than 2,046 bytes. `BadStream`: `rtx_payload_type` is 128 or more.
/// `Unreadable`: the packet isn't RTP.
#[unsafe(no_mangle)]
pub extern "C" fn zoftemar_wrap(
    bytes: &[u8],
    number: u16,
    rtx_ssrc: u32,
    rtx_payload_type: u8,
    out: &mut [u8],
) -> PlainReply
    ensures refused { IfSome (wrap_refusal (length out.old) bytes.now rtx_payload_type) (λ rc. (result ≡ rc) × (out.new ≡ out.old)) }
    ensures reply_is { wrap_refusal (length out.old) bytes.now rtx_payload_type ≡ None → result ≡ one_of Packet result.first }
    ensures wraps { wrap_refusal (length out.old) bytes.now rtx_payload_type ≡ None
        → IsRetransmission bytes.now number (record { ssrc = rtx_ssrc; payload_type = rtx_payload_type }) (take result.first out.new) }
    ensures rest { drop (bytes_written result) out.new ≡ drop (bytes_written result) out.old }
{
    if out.len() < PACKET_ROOM {
        return PlainReply::bare(Code::NoSpace);
    }
    if bytes.len() > MOST_WRAPPED {
        return PlainReply::bare(Code::TooLong);
    }
    if rtx_payload_type >= PAYLOAD_TYPES {
        return PlainReply::bare(Code::BadStream);
    }
    match read(bytes) {
        Err(fault) => PlainReply::of_refusal(Refusal::Unreadable(fault)),
        Ok(_) => {
            let rtx = Rtx {
                ssrc: rtx_ssrc,
                payload_type: rtx_payload_type,
            };
            let mut wrapped = PacketBuf::new();
            wrap(bytes, number, &rtx, &mut wrapped);
            give_packet(&wrapped, out)
        }
    }
}

/// Unwraps a retransmission packet, as `unwrap` of `rtx_stream` does. Returns `Packet`, and writes the original packet to the start of `out`. This packet
/// has the SSRC `ssrc` and the payload type `payload_type`. If the call fails, it writes nothing, and returns the first of the following codes that
/// applies. `NoSpace`: `out` has fewer than 2,048 bytes. `TooLong`: `bytes` has more than 2,048 bytes. `BadStream`: `payload_type` is 128 or more.
/// `Unreadable`: `bytes` isn't RTP, or has no original sequence number.
#[unsafe(no_mangle)]
pub extern "C" fn zoftemar_unwrap(
    bytes: &[u8],
    ssrc: u32,
    payload_type: u8,
    out: &mut [u8],
) -> PlainReply
    ensures refused { IfSome (unwrap_refusal (length out.old) bytes.now payload_type) (λ rc. (result ≡ rc) × (out.new ≡ out.old)) }
    ensures reply_is { unwrap_refusal (length out.old) bytes.now payload_type ≡ None → result ≡ one_of Packet result.first }
    ensures unwraps { unwrap_refusal (length out.old) bytes.now payload_type ≡ None → IsOriginal bytes.now ssrc payload_type (take result.first out.new) }
    ensures rest { drop (bytes_written result) out.new ≡ drop (bytes_written result) out.old }
{
    if out.len() < PACKET_ROOM {
        return PlainReply::bare(Code::NoSpace);
    }
    if bytes.len() > PACKET_ROOM {
        return PlainReply::bare(Code::TooLong);
    }
    if payload_type >= PAYLOAD_TYPES {
        return PlainReply::bare(Code::BadStream);
    }
    let mut original = PacketBuf::new();
    match unwrap(bytes, ssrc, payload_type, &mut original) {
        Ok(()) => give_packet(&original, out),
        Err(RtxFault::Unreadable(fault)) => PlainReply::of_refusal(Refusal::Unreadable(fault)),
        Err(RtxFault::Cut) => PlainReply::with(Code::Unreadable, NO_ORIGINAL),
    }
}
