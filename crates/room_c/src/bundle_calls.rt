// Calls on bundles. A bundle merges the packets of its legs into one stream. The legs are two or three subscribers of layered tracks. Seat 0 makes the takes
// and pleas of all bundles. If the handle has no room, a call returns `NoRoom`, unless `BadLegs` or `NoSpace` applies.
ghost use Rattle.std.specs.Prelude.{◌≡◌, ◌<◌, ◌≤◌, drop, length};
ghost use Rattle.simulcast.specs.Made.{just_made, just_renumbered};
ghost use Rattle.room_c.specs.declared.code.Code.TheVariants.{BadLegs, NoSpace};
ghost use Rattle.room_c.specs.Bundling.{ChoosesLegOf, DrawsFrom, IsNoCount, Makes, Pumps, RedrawsFrom};
ghost use Rattle.room_c.specs.Serving.{GivesBytes};
ghost use Rattle.room_c.specs.Numbers.{bare_of, bytes_written};

use crate::answers::{PACKET_ROOM, give_packet};
use crate::code::Code;
use crate::handle::Handle;
use crate::home::Home;
use crate::plain_reply::PlainReply;
use std::alloc::Global;

/// Creates a bundle, as `Bundles::bundle` does. The legs are two or three subscribers. Their tracks are layered and use the header extension id `id`. The
/// bundle's packets have this SSRC, and their sequence numbers start at `first`. At first, leg 1 is the chosen leg. Returns `Done`. Refusals, which change
/// nothing: `NumberUsed`, `TooMany`, `NoSubscriber`, `Bound`, `WrongKind`, `NoMemory`. `BadLegs`: there are fewer than two legs, or more than three; nothing
/// changes.
#[unsafe(no_mangle)]
pub extern "C" fn zoftemar_bundle(
    alloc: Global,
    room: &mut Handle,
    bundle: u32,
    id: u8,
    ssrc: u32,
    first: u16,
    legs: &[u32],
) -> PlainReply
    ensures makes { 2 ≤ length legs.now → length legs.now ≤ 3
        → Makes (just_made bundle id ssrc first legs.now) room.old.held.home room.new.held.home result }
    ensures bad { IsNoCount legs.now → (result ≡ bare_of BadLegs) × (room.new.held.home ≡ room.old.held.home) }
{
    if legs.len() < 2 || legs.len() > 3 {
        return PlainReply::bare(Code::BadLegs);
    }
    let Some(mut home) = room.take(alloc) else {
        return PlainReply::bare(Code::NoRoom);
    };
    let answer = home.bundles.bundle(bundle, id, ssrc, first, legs);
    room.put(home);
    PlainReply::of_done(answer)
}

/// Creates a bundle, as `Bundles::bundle_renumbered` does. When the bundle changes to another leg, its frame numbers continue. Returns the same codes as
/// `zoftemar_bundle`.
#[unsafe(no_mangle)]
pub extern "C" fn zoftemar_bundle_renumbered(
    alloc: Global,
    room: &mut Handle,
    bundle: u32,
    id: u8,
    ssrc: u32,
    first: u16,
    legs: &[u32],
) -> PlainReply
    ensures makes { 2 ≤ length legs.now → length legs.now ≤ 3
        → Makes (just_renumbered bundle id ssrc first legs.now) room.old.held.home room.new.held.home result }
    ensures bad { IsNoCount legs.now → (result ≡ bare_of BadLegs) × (room.new.held.home ≡ room.old.held.home) }
{
    if legs.len() < 2 || legs.len() > 3 {
        return PlainReply::bare(Code::BadLegs);
    }
    let Some(mut home) = room.take(alloc) else {
        return PlainReply::bare(Code::NoRoom);
    };
    let answer = home
        .bundles
        .bundle_renumbered(bundle, id, ssrc, first, legs);
    room.put(home);
    PlainReply::of_done(answer)
}

/// Chooses a leg of a bundle, as `Bundles::choose` does. Legs are counted from 1. If the bundle already forwards this leg, it goes on doing so. Otherwise a key
/// frame of the leg's track is requested, and the bundle forwards the leg from the leg's next key frame on. Returns `Done`. Refusals, which change nothing:
/// `NoBundle`, `NoLeg`.
#[unsafe(no_mangle)]
pub extern "C" fn zoftemar_choose(
    alloc: Global,
    room: &mut Handle,
    bundle: u32,
    leg: u8,
) -> PlainReply
    ensures { ChoosesLegOf bundle leg room.old.held.home room.new.held.home result }
{
    let Some(mut home) = room.take(alloc) else {
        return PlainReply::bare(Code::NoRoom);
    };
    let Home {
        bundles,
        scratch,
        inbox: _,
    } = &mut *home;
    let answer = bundles.choose(bundle, leg, scratch);
    room.put(home);
    PlainReply::of_done(answer)
}

/// Takes the packets that are queued for a bundle's legs, as `Bundles::pump` does. Queues those that the bundle forwards. Returns `Pumped`. Refusal, which
/// changes nothing: `NoBundle`.
#[unsafe(no_mangle)]
pub extern "C" fn zoftemar_pump(alloc: Global, room: &mut Handle, bundle: u32) -> PlainReply
    ensures { Pumps bundle room.old.held.home room.new.held.home result }
{
    let Some(mut home) = room.take(alloc) else {
        return PlainReply::bare(Code::NoRoom);
    };
    let Home {
        bundles,
        scratch,
        inbox: _,
    } = &mut *home;
    let answer = bundles.pump(bundle, scratch);
    room.put(home);
    PlainReply::of_pumped(answer)
}

/// Takes the oldest queued packet of a bundle, as `Bundles::draw` does, and writes the packet to the start of `out`. Returns `Packet`. The packet contains its
/// sequence number. Refusals: `NoBundle`, `Empty`. `NoSpace`: `out` has fewer than 2,048 bytes. A refusal or `NoSpace` changes nothing.
#[unsafe(no_mangle)]
pub extern "C" fn zoftemar_draw(
    alloc: Global,
    room: &mut Handle,
    bundle: u32,
    out: &mut [u8],
) -> PlainReply
    ensures draws { 2048 ≤ length out.old → DrawsFrom bundle room.old.held.home room.new.held.home result }
    ensures gives { 2048 ≤ length out.old → GivesBytes room.new.held.home result out.new }
    ensures rest { drop (bytes_written result) out.new ≡ drop (bytes_written result) out.old }
    ensures short { length out.old < 2048 → (result ≡ bare_of NoSpace) × (room.new.held.home ≡ room.old.held.home) × (out.new ≡ out.old) }
{
    if out.len() < PACKET_ROOM {
        return PlainReply::bare(Code::NoSpace);
    }
    let Some(mut home) = room.take(alloc) else {
        return PlainReply::bare(Code::NoRoom);
    };
    let Home {
        bundles,
        scratch,
        inbox: _,
    } = &mut *home;
    let rc = match bundles.draw(bundle, &mut scratch.packet) {
        Ok(_) => give_packet(&scratch.packet, out),
        Err(why) => PlainReply::of_fault(why),
    };
    room.put(home);
    rc
}

/// Writes an already drawn packet of a bundle to the start of `out` again, as `Bundles::redraw` does. Use this call to answer a NACK (RFC 4585, section 6.2.1).
/// `seq` is the packet's sequence number. Returns `Packet`. Refusals: `NoBundle`, `NotKept`. `NoSpace`: `out` has fewer than 2,048 bytes. A refusal or
/// `NoSpace` changes nothing.
#[unsafe(no_mangle)]
pub extern "C" fn zoftemar_redraw(
    alloc: Global,
    room: &mut Handle,
    bundle: u32,
    seq: u16,
    out: &mut [u8],
) -> PlainReply
    ensures redraws { 2048 ≤ length out.old → RedrawsFrom bundle seq room.old.held.home room.new.held.home result }
    ensures gives { 2048 ≤ length out.old → GivesBytes room.new.held.home result out.new }
    ensures rest { drop (bytes_written result) out.new ≡ drop (bytes_written result) out.old }
    ensures short { length out.old < 2048 → (result ≡ bare_of NoSpace) × (room.new.held.home ≡ room.old.held.home) × (out.new ≡ out.old) }
{
    if out.len() < PACKET_ROOM {
        return PlainReply::bare(Code::NoSpace);
    }
    let Some(mut home) = room.take(alloc) else {
        return PlainReply::bare(Code::NoRoom);
    };
    let Home {
        bundles,
        scratch,
        inbox: _,
    } = &mut *home;
    let rc = match bundles.redraw(bundle, seq, &mut scratch.packet) {
        Ok(()) => give_packet(&scratch.packet, out),
        Err(why) => PlainReply::of_fault(why),
    };
    room.put(home);
    rc
}
