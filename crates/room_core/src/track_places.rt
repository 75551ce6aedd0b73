// Updates the sets of places that tracks have. A place is the index of a subscriber in the table of subscribers.
ghost use Rattle.std.specs.Prelude.{◌≡◌, ◌<◌, Some, false, nat_eq, true};
ghost use Rattle.indexmap.specs.IndexMap.{get, index_map_len};
ghost use Rattle.place_set.specs.Places.{has_place};
ghost use Rattle.room_core.specs.Indexed.{AreSame, AreSameBut, HaveAll, HaveAllBut, tracks_of};
ghost use Rattle.room_core.specs.declared.live.LiveTrack.{LiveTrack};

use crate::live::{LiveSubscriber, LiveTrack};
use indexmap::IndexMap;

/// If the track is live, adds a subscriber's place to the track's set of places. A place is an index in the table of subscribers.
pub fn put_place(tracks: &mut IndexMap<u32, LiveTrack>, track: u32, place: usize)
    requires { place < 256 }
    ensures changed { AreSameBut place (get nat_eq tracks.old) (get nat_eq tracks.new) }
    ensures put { (known : LiveTrack) → get nat_eq tracks.new track ≡ Some known → has_place known.places place ≡ true }
    ensures count { index_map_len tracks.new ≡ index_map_len tracks.old }
{
    if let Some(known) = tracks.get_mut(&track) {
        known.places.put(place);
    }
}

/// If the track is live, removes this place from the track's set of places. Call this when no subscriber of the track has this place any more.
pub fn take_place(tracks: &mut IndexMap<u32, LiveTrack>, track: u32, place: usize)
    requires { place < 256 }
    ensures changed { AreSameBut place (get nat_eq tracks.old) (get nat_eq tracks.new) }
    ensures taken { (known : LiveTrack) → get nat_eq tracks.new track ≡ Some known → has_place known.places place ≡ false }
    ensures count { index_map_len tracks.new ≡ index_map_len tracks.old }
{
    if let Some(known) = tracks.get_mut(&track) {
        known.places.take(place);
    }
}

/// Updates the sets of places after the subscriber at `place` was removed from the table. Such a removal moves the last subscriber of the table to
/// `place`, unless the removed subscriber was the last one. In the set of the moved subscriber's track, replaces this subscriber's old place with
/// `place`.
pub fn move_last(
    tracks: &mut IndexMap<u32, LiveTrack>,
    subscribers: &IndexMap<u32, LiveSubscriber>,
    place: usize,
)
    requires { index_map_len subscribers.now < 256 }
    ensures same { AreSame (get nat_eq tracks.old) (get nat_eq tracks.new) }
    ensures all { HaveAllBut place (get nat_eq tracks.old) (tracks_of subscribers.now.entries)
        → HaveAll (get nat_eq tracks.new) (tracks_of subscribers.now.entries) }
    ensures count { index_map_len tracks.new ≡ index_map_len tracks.old }
{
    if let Some((_, moved)) = subscribers.get_index(place) {
        take_place(tracks, moved.track, subscribers.len());
        put_place(tracks, moved.track, place);
    }
}
