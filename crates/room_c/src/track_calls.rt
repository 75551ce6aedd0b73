// Calls on a track. `seat` names the caller for the room's recorder; this room's recorder ignores it. An accepted call returns `Done`, unless its comment
// names another code. If the handle has no room, a call returns `NoRoom`, unless `TooLong` or `NoSpace` applies.
ghost use Rattle.std.specs.Prelude.{◌≡◌, ◌<◌, ◌≤◌, drop, length};
ghost use Rattle.sfu_base.specs.declared.call.Call.TheVariants as call;
ghost use Rattle.sfu_base.specs.declared.call.Kind.TheVariants.{Layered, Plain};
ghost use Rattle.room_c.specs.declared.code.Code.TheVariants.{NoSpace, TooLong};
ghost use Rattle.room_c.specs.Serving.{Does, GivesNumbers};
ghost use Rattle.room_c.specs.Numbers.{bare_of, numbers_written};

use crate::answers::{NAMES_ROOM, PACKET_ROOM, give_numbers};
use crate::code::Code;
use crate::handle::Handle;
use crate::home::Home;
use crate::plain_reply::PlainReply;
use sfu_base::{Call, Kind};
use std::alloc::Global;

/// Publishes a plain track, as `Room::publish` does. At a gap in the sequence numbers, the track waits `hold` milliseconds. Refusals: `NumberUsed`,
/// `TooMany`, `NoMemory`.
#[unsafe(no_mangle)]
pub extern "C" fn zoftemar_publish_plain(
    alloc: Global,
    room: &mut Handle,
    seat: u32,
    track: u32,
    ssrc: u32,
    hold: u32,
) -> PlainReply
    ensures does { Does room.old.held.home room.new.held.home seat (call.Publish track Plain ssrc hold) result }
{
    let kind = Kind::Plain;
    room.serve(
        alloc,
        seat,
        &Call::Publish {
            track,
            kind,
            ssrc,
            hold,
        },
    )
}

/// Publishes a layered track, as `Room::publish` does. The track's dependency descriptors are in the header extension element with the id `id` (RFC 8285).
/// Refusals: `NumberUsed`, `TooMany`, `BadExtensionId`, `NoMemory`.
#[unsafe(no_mangle)]
pub extern "C" fn zoftemar_publish_layered(
    alloc: Global,
    room: &mut Handle,
    seat: u32,
    track: u32,
    id: u8,
    ssrc: u32,
    hold: u32,
) -> PlainReply
    ensures does { Does room.old.held.home room.new.held.home seat (call.Publish track (Layered id) ssrc hold) result }
{
    let kind = Kind::Layered { id };
    room.serve(
        alloc,
        seat,
        &Call::Publish {
            track,
            kind,
            ssrc,
            hold,
        },
    )
}

/// Ends a track, as `Room::unpublish` does. Refusal: `NoTrack`.
#[unsafe(no_mangle)]
pub extern "C" fn zoftemar_unpublish(
    alloc: Global,
    room: &mut Handle,
    seat: u32,
    track: u32,
) -> PlainReply
    ensures does { Does room.old.held.home room.new.held.home seat (call.Unpublish track) result }
{
    room.serve(alloc, seat, &Call::Unpublish { track })
}

/// Adds a packet to a track, as `Room::packet` does. The packet arrives at `moment`, in milliseconds. Refusals: `NoTrack`, `TooBig`, `Unreadable`,
/// `WrongSsrc`, `Spent`, `Late`, `Repeat`. `TooLong`: the packet has more than 2,048 bytes; nothing changes.
#[unsafe(no_mangle)]
#[tactic(auto, using(crate::proofs::Silently::whole_of))]
pub extern "C" fn zoftemar_packet(
    alloc: Global,
    room: &mut Handle,
    seat: u32,
    track: u32,
    moment: u64,
    bytes: &[u8],
) -> PlainReply
    ensures does { length bytes.now ≤ 2048 → Does room.old.held.home room.new.held.home seat (call.Packet track moment bytes.now) result }
    ensures long { 2048 < length bytes.now → (result ≡ bare_of TooLong) × (room.new.held.home ≡ room.old.held.home) }
{
    if bytes.len() > PACKET_ROOM {
        return PlainReply::bare(Code::TooLong);
    }
    let Some(mut home) = room.take(alloc) else {
        return PlainReply::bare(Code::NoRoom);
    };
    let Home {
        bundles,
        scratch,
        inbox,
    } = &mut *home;
    inbox.fill(bytes);
    let reply = bundles.packet(seat, track, moment, inbox);
    let rc = PlainReply::of_reply(&reply, scratch);
    room.put(home);
    rc
}

/// Advances a track's time, as `Room::tick` does. The new time is `moment`, in milliseconds. Refusal: `NoTrack`.
#[unsafe(no_mangle)]
#[tactic(auto, using(crate::proofs::Silently::whole_of))]
pub extern "C" fn zoftemar_tick(
    alloc: Global,
    room: &mut Handle,
    seat: u32,
    track: u32,
    moment: u64,
) -> PlainReply
    ensures does { Does room.old.held.home room.new.held.home seat (call.Tick track moment) result }
{
    let Some(mut home) = room.take(alloc) else {
        return PlainReply::bare(Code::NoRoom);
    };
    let Home {
        bundles,
        scratch,
        inbox: _,
    } = &mut *home;
    let reply = bundles.tick(seat, track, moment);
    let rc = PlainReply::of_reply(&reply, scratch);
    room.put(home);
    rc
}

/// Lists the missing sequence numbers for which a track waits, as `Room::missing` does. Returns `Names`, and writes these numbers to the start of `out`.
/// Refusal: `NoTrack`. `NoSpace`: `out` has fewer than 1,024 items; nothing changes.
#[unsafe(no_mangle)]
pub extern "C" fn zoftemar_missing(
    alloc: Global,
    room: &mut Handle,
    seat: u32,
    track: u32,
    out: &mut [u16],
) -> PlainReply
    ensures does { 1024 ≤ length out.old → Does room.old.held.home room.new.held.home seat (call.Missing track) result }
    ensures gives { 1024 ≤ length out.old → GivesNumbers room.new.held.home result out.new }
    ensures rest { drop (numbers_written result) out.new ≡ drop (numbers_written result) out.old }
    ensures short { length out.old < 1024 → (result ≡ bare_of NoSpace) × (room.new.held.home ≡ room.old.held.home) × (out.new ≡ out.old) }
{
    if out.len() < NAMES_ROOM {
        return PlainReply::bare(Code::NoSpace);
    }
    let Some(mut home) = room.take(alloc) else {
        return PlainReply::bare(Code::NoRoom);
    };
    let Home {
        bundles,
        scratch,
        inbox: _,
    } = &mut *home;
    let answer = bundles.call(seat, &Call::Missing { track }, scratch);
    let rc = give_numbers(answer, scratch, out);
    room.put(home);
    rc
}

/// Returns `Key`. `has` is the result of `Room::key_wanted`. It says whether a key frame should be requested from the track's publisher. Refusal:
/// `NoTrack`.
#[unsafe(no_mangle)]
pub extern "C" fn zoftemar_key_wanted(
    alloc: Global,
    room: &mut Handle,
    seat: u32,
    track: u32,
) -> PlainReply
    ensures does { Does room.old.held.home room.new.held.home seat (call.KeyWanted track) result }
{
    room.serve(alloc, seat, &Call::KeyWanted { track })
}
