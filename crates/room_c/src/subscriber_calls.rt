// Calls on a subscriber. `seat` names the caller for the room's recorder; this room's recorder ignores it. An accepted call returns `Done`, unless its
// comment names another code. If the handle has no room, a call returns `NoRoom`, unless `NoSpace` applies.
ghost use Rattle.std.specs.Prelude.{◌≡◌, ◌<◌, ◌≤◌, drop, length};
ghost use Rattle.sfu_base.specs.declared.call.Call.TheVariants as call;
ghost use Rattle.room_c.specs.declared.code.Code.TheVariants.{NoSpace};
ghost use Rattle.room_c.specs.Serving.{Does, GivesBytes};
ghost use Rattle.room_c.specs.Numbers.{bare_of, bytes_written};

use crate::answers::{PACKET_ROOM, give_answer, give_taken};
use crate::code::Code;
use crate::handle::Handle;
use crate::home::Home;
use crate::plain_reply::PlainReply;
use sfu_base::{Call, Wish};
use std::alloc::Global;

/// Makes a subscriber join a track, as `Room::join` does. The packets sent to the subscriber have the SSRC `ssrc`, and their sequence numbers start at
/// `first`. The subscriber's wish has the highest spatial layer `spatial` and the highest temporal layer `temporal`. Refusals: `NoTrack`, `NumberUsed`,
/// `TooMany`, `NoMemory`.
#[unsafe(no_mangle)]
pub extern "C" fn zoftemar_join(
    alloc: Global,
    room: &mut Handle,
    seat: u32,
    subscriber: u32,
    track: u32,
    ssrc: u32,
    first: u16,
    spatial: u8,
    temporal: u8,
) -> PlainReply
    ensures does { Does room.old.held.home room.new.held.home seat
        (call.Join subscriber track ssrc first (record { spatial = spatial; temporal = temporal })) result }
{
    let wish = Wish { spatial, temporal };
    room.serve(
        alloc,
        seat,
        &Call::Join {
            subscriber,
            track,
            ssrc,
            first,
            wish,
        },
    )
}

/// Removes a subscriber, as `Room::leave` does. Refusals: `NoSubscriber`, `Bound`.
#[unsafe(no_mangle)]
pub extern "C" fn zoftemar_leave(
    alloc: Global,
    room: &mut Handle,
    seat: u32,
    subscriber: u32,
) -> PlainReply
    ensures does { Does room.old.held.home room.new.held.home seat (call.Leave subscriber) result }
{
    room.serve(alloc, seat, &Call::Leave { subscriber })
}

/// Changes a subscriber's wish, as `Room::aim` does. The new wish applies from the next frame on. Refusal: `NoSubscriber`.
#[unsafe(no_mangle)]
pub extern "C" fn zoftemar_aim(
    alloc: Global,
    room: &mut Handle,
    seat: u32,
    subscriber: u32,
    spatial: u8,
    temporal: u8,
) -> PlainReply
    ensures does { Does room.old.held.home room.new.held.home seat (call.Aim subscriber (record { spatial = spatial; temporal = temporal })) result }
{
    let wish = Wish { spatial, temporal };
    room.serve(alloc, seat, &Call::Aim { subscriber, wish })
}

/// Takes the oldest packet queued for a subscriber, as `Room::take` does, and writes the packet to the start of `out`. Returns `Packet`. Refusals:
/// `NoSubscriber`, `Empty`, `Bound`. `NoSpace`: `out` has fewer than 2,048 bytes; nothing changes.
#[unsafe(no_mangle)]
pub extern "C" fn zoftemar_take(
    alloc: Global,
    room: &mut Handle,
    seat: u32,
    subscriber: u32,
    out: &mut [u8],
) -> PlainReply
    ensures does { 2048 ≤ length out.old → Does room.old.held.home room.new.held.home seat (call.Take subscriber) result }
    ensures gives { 2048 ≤ length out.old → GivesBytes room.new.held.home result out.new }
    ensures rest { drop (bytes_written result) out.new ≡ drop (bytes_written result) out.old }
    ensures short { length out.old < 2048 → (result ≡ bare_of NoSpace) × (room.new.held.home ≡ room.old.held.home) × (out.new ≡ out.old) }
{
    if out.len() < PACKET_ROOM {
        return PlainReply::bare(Code::NoSpace);
    }
    let Some(mut home) = room.take(alloc) else {
        return PlainReply::bare(Code::NoRoom);
    };
    let Home {
        bundles,
        scratch,
        inbox: _,
    } = &mut *home;
    let mut bound = None;
    let reply = bundles.take(seat, subscriber, scratch, &mut bound);
    let rc = give_taken(bound, &reply, scratch, out);
    room.put(home);
    rc
}

/// Retransmits a packet that was already taken, as `Room::resend` does for a NACK (RFC 4585, section 6.2.1). `seq` is the packet's sequence number. Returns
/// `Packet`, and writes the packet to the start of `out`. Refusals: `NoSubscriber`, `NotKept`. `NoSpace`: `out` has fewer than 2,048 bytes; nothing
/// changes.
#[unsafe(no_mangle)]
pub extern "C" fn zoftemar_resend(
    alloc: Global,
    room: &mut Handle,
    seat: u32,
    subscriber: u32,
    seq: u16,
    out: &mut [u8],
) -> PlainReply
    ensures does { 2048 ≤ length out.old → Does room.old.held.home room.new.held.home seat (call.Resend subscriber seq) result }
    ensures gives { 2048 ≤ length out.old → GivesBytes room.new.held.home result out.new }
    ensures rest { drop (bytes_written result) out.new ≡ drop (bytes_written result) out.old }
    ensures short { length out.old < 2048 → (result ≡ bare_of NoSpace) × (room.new.held.home ≡ room.old.held.home) × (out.new ≡ out.old) }
{
    if out.len() < PACKET_ROOM {
        return PlainReply::bare(Code::NoSpace);
    }
    let Some(mut home) = room.take(alloc) else {
        return PlainReply::bare(Code::NoRoom);
    };
    let Home {
        bundles,
        scratch,
        inbox: _,
    } = &mut *home;
    let answer = bundles.call(seat, &Call::Resend { subscriber, seq }, scratch);
    let rc = give_answer(answer, scratch, out);
    room.put(home);
    rc
}

/// Requests a key frame, as `Room::plead` does for a picture loss indication (RFC 4585, section 6.3.1). Refusals: `NoSubscriber`, `NoTrack`,
/// `Plain`.
#[unsafe(no_mangle)]
pub extern "C" fn zoftemar_plead(
    alloc: Global,
    room: &mut Handle,
    seat: u32,
    subscriber: u32,
) -> PlainReply
    ensures does { Does room.old.held.home room.new.held.home seat (call.Plead subscriber) result }
{
    room.serve(alloc, seat, &Call::Plead { subscriber })
}

/// Returns why a frame was or wasn't forwarded to a subscriber, as `Room::why` does. The reason is a code, 16 to 23. `number` is the frame's unwrapped
/// frame number. Refusals: `NoSubscriber`, `Ahead`, `TooOld`.
#[unsafe(no_mangle)]
pub extern "C" fn zoftemar_why(
    alloc: Global,
    room: &mut Handle,
    seat: u32,
    subscriber: u32,
    number: u64,
) -> PlainReply
    ensures does { Does room.old.held.home room.new.held.home seat (call.Why subscriber number) result }
{
    room.serve(alloc, seat, &Call::Why { subscriber, number })
}
