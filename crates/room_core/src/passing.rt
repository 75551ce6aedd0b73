// Offers the packets and frames of a track to each of the track's subscribers.
ghost use Rattle.std.specs.Prelude.{◌≡◌, ◌≤◌, ◌&&◌, ◌∷◌, [], None, nat_eq, not, length};
ghost use Rattle.indexmap.specs.IndexMap.{get, index_map_len};
ghost use Rattle.rtp_packet.specs.Faults.{first_fault};
ghost use Rattle.sfu_base.specs.Frame.{IsValid};
ghost use Rattle.track_core.specs.Track.{with_meaning};
ghost use Rattle.room_core.specs.Follows.{FollowsFrame, FollowsPacket, carries_mask_by};
ghost use Rattle.room_core.specs.Indexed.{HasPlaces, tracks_of};
ghost use Rattle.room_core.specs.Passing.{IsPassed, PassedTo, WaitsIn, WaitsOne, WorkedIf, WorkedOff};
ghost use Rattle.room_core.specs.Stepping.{IsMadeValid, Steps};
ghost use Rattle.frame_cache.specs.Sharing.{AreFirst};
ghost use Rattle.room_core.specs.FrameCache.{IsOfFrame};

use crate::live::LiveSubscriber;
use crate::sending::first_carries_mask;
use frame_cache::FrameCache;
use indexmap::IndexMap;
use place_set::PlaceSet;
use sfu_base::FrameMeaning;
use target_selector::FrameOffer;
use track_core::{Advance, Track};

/// Processes all waiting items of a track. An item is a packet, or a gap that was given up. Offers the resulting packets (plain track) or complete frames
/// (layered track) to each of the track's subscribers. A complete key frame ends a pending key frame request.
pub fn work_off(
    pipeline: &mut Track,
    pleaded: &mut bool,
    number: u32,
    subscribers: &mut IndexMap<u32, LiveSubscriber>,
    places: &PlaceSet,
    cache: &mut FrameCache,
)
    requires { HasPlaces places.now number (tracks_of subscribers.old.entries) }
    ensures worked { WorkedOff pipeline.old pipeline.new number (get nat_eq subscribers.old) (get nat_eq subscribers.new) pleaded.old pleaded.new }
    ensures count { index_map_len subscribers.new ≡ index_map_len subscribers.old }
    ensures tracks { tracks_of subscribers.new.entries ≡ tracks_of subscribers.old.entries }
{
    while work_off_one(pipeline, pleaded, number, subscribers, places, cache) {}
}

// Processes one item, and returns true. Returns false if no item waits. This function isn't inlined into the loop, because mostly only one item
// waits, and an inlined loop would prepare for more items.
#[inline(never)]
fn work_off_one(
    pipeline: &mut Track,
    pleaded: &mut bool,
    number: u32,
    subscribers: &mut IndexMap<u32, LiveSubscriber>,
    places: &PlaceSet,
    cache: &mut FrameCache,
) -> bool
    requires { HasPlaces places.now number (tracks_of subscribers.old.entries) }
    ensures worked { WorkedIf result pipeline.old pipeline.new number (get nat_eq subscribers.old) (get nat_eq subscribers.new) pleaded.old pleaded.new }
    ensures count { index_map_len subscribers.new ≡ index_map_len subscribers.old }
    ensures tracks { tracks_of subscribers.new.entries ≡ tracks_of subscribers.old.entries }
{
    match step(pipeline) {
        Advance::Idle => false,
        Advance::Nothing => true,
        Advance::Packet => {
            pass_packet_to_all(subscribers, places, number, pipeline.packet(0), cache);
            true
        }
        Advance::Frame => {
            let frame = pipeline.meaning();
            *pleaded = still_pleaded(*pleaded, frame.key);
            pass_frame_to_all(subscribers, places, number, pipeline, frame, cache);
            true
        }
    }
}

// Advances the track by one item. The contract describes this step by the track's items.
fn step(pipeline: &mut Track) -> Advance
    ensures steps { Steps pipeline.old pipeline.new (with_meaning pipeline.new.meaning result) }
    ensures valid { IsMadeValid (with_meaning pipeline.new.meaning result) pipeline.new.packets }
{
    pipeline.advance()
}

// Returns whether a key frame request is still pending after a frame. A key frame ends the request.
fn still_pleaded(pleaded: bool, key: bool) -> bool
    ensures { result ≡ (pleaded && not key) }
{
    pleaded && !key
}

// Offers the last packet of a plain track to each of the track's subscribers.
fn pass_packet_to_all(
    subscribers: &mut IndexMap<u32, LiveSubscriber>,
    places: &PlaceSet,
    number: u32,
    packet: &[u8],
    cache: &mut FrameCache,
)
    requires reads { first_fault packet.now ≡ None }
    requires fits { length packet.now ≤ 1500 }
    requires places { HasPlaces places.now number (tracks_of subscribers.old.entries) }
    ensures passed { PassedTo (λ old new. FollowsPacket old new packet.now) number (get nat_eq subscribers.old) (get nat_eq subscribers.new) }
    ensures count { index_map_len subscribers.new ≡ index_map_len subscribers.old }
    ensures tracks { tracks_of subscribers.new.entries ≡ tracks_of subscribers.old.entries }
{
    cache.forget();
    let mut from = 0;
    while let Some(place) = places.first_from(from) {
        if let Some(subscriber) = subscribers.get_index_mut(place) {
            pass_packet(subscriber, number, packet, cache);
        }
        from = place + 1;
    }
}

// Offers the packet to this subscriber, if the subscriber belongs to the track.
fn pass_packet(subscriber: &mut LiveSubscriber, number: u32, packet: &[u8], cache: &mut FrameCache)
    requires reads { first_fault packet.now ≡ None }
    requires fits { length packet.now ≤ 1500 }
    requires shared { AreFirst cache.old.shared.items (packet.now ∷ []) }
    ensures passed { IsPassed (λ old new. FollowsPacket old new packet.now) number subscriber.old subscriber.new }
    ensures shared { AreFirst cache.new.shared.items (packet.now ∷ []) }
{
    if subscriber.track == number {
        subscriber.feed.pass_packet(packet, cache);
    }
}

// Offers the last frame of a layered track to each of the track's subscribers. This function isn't inlined, so that its loop has all registers.
#[inline(never)]
fn pass_frame_to_all(
    subscribers: &mut IndexMap<u32, LiveSubscriber>,
    places: &PlaceSet,
    number: u32,
    track: &Track,
    frame: &FrameMeaning,
    cache: &mut FrameCache,
)
    requires valid { IsValid frame.now }
    requires places { HasPlaces places.now number (tracks_of subscribers.old.entries) }
    ensures passed { PassedTo (λ old new. FollowsFrame old new frame.now track.now) number (get nat_eq subscribers.old) (get nat_eq subscribers.new) }
    ensures count { index_map_len subscribers.new ≡ index_map_len subscribers.old }
    ensures tracks { tracks_of subscribers.new.entries ≡ tracks_of subscribers.old.entries }
{
    let offer = FrameOffer::new(frame, track.count());
    let carries_mask = first_carries_mask(track);
    cache.forget();
    let mut from = 0;
    while let Some(place) = places.first_from(from) {
        if let Some(subscriber) = subscribers.get_index_mut(place) {
            pass_frame(subscriber, number, track, &offer, carries_mask, cache);
        }
        from = place + 1;
    }
}

// Offers the frame to this subscriber, if the subscriber belongs to the track.
fn pass_frame(
    subscriber: &mut LiveSubscriber,
    number: u32,
    track: &Track,
    offer: &FrameOffer<'_>,
    carries_mask: bool,
    cache: &mut FrameCache,
)
    requires count { offer.now.packets ≡ length track.now.packets }
    requires carries_mask { carries_mask ≡ carries_mask_by track.now.layers track.now.packets }
    requires of_frame { IsOfFrame track.now.layers track.now.packets cache.old }
    ensures passed { IsPassed (λ old new. FollowsFrame old new offer.now.frame track.now) number subscriber.old subscriber.new }
    ensures of_frame { IsOfFrame track.now.layers track.now.packets cache.new }
{
    if subscriber.track == number {
        subscriber
            .feed
            .pass_frame(track, offer, carries_mask, cache);
    }
}

/// Returns whether at least one subscriber of a track has no current decode target.
pub fn waits(subscribers: &IndexMap<u32, LiveSubscriber>, places: &PlaceSet, number: u32) -> bool
    requires { HasPlaces places.now number (tracks_of subscribers.now.entries) }
    ensures { WaitsIn result number (get nat_eq subscribers.now) }
{
    let mut from = 0;
    while let Some(place) = places.first_from(from) {
        if let Some((_, subscriber)) = subscribers.get_index(place) {
            if waits_one(subscriber, number) {
                return true;
            }
        }
        from = place + 1;
    }
    false
}

fn waits_one(subscriber: &LiveSubscriber, number: u32) -> bool
    ensures { WaitsOne result number subscriber.now }
{
    subscriber.track == number && subscriber.feed.has_no_target()
}
