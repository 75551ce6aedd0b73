// The live tracks and live subscribers of a room.
ghost use Rattle.std.specs.Prelude.{◌≡◌, ◌≤◌, []};
ghost use Rattle.indexmap.specs.IndexMap.{index_map_len};

use crate::feed::Feed;
use frame_cache::FrameCache;
use indexmap::IndexMap;
use place_set::PlaceSet;
use sfu_base::Kind;
use track_core::Track;

/// A live track. `pleaded` is true while a key frame request is pending. `frame_cache` is the cache of the current frame. `places` has the places of the
/// track's subscribers in the table of subscribers. Between calls, no item waits in the pipeline. The large parts are on the heap. This keeps the room
/// small, because a lock moves the room twice per turn.
#[derive(Drop)]
pub struct LiveTrack {
    pub kind: Kind,
    pub pleaded: bool,
    pub pipeline: Box<Track>,
    pub frame_cache: Box<FrameCache>,
    pub places: PlaceSet,
    ghost idle: { pipeline.value.window.waiting ≡ [] },
}

/// A live subscriber. `track` is the number of the subscriber's track, and `resent` is the number of packets that were retransmitted to the subscriber.
/// The feed is on the heap. This keeps the entries of the table small, because a leave moves one entry, and `count_on` reads all entries.
#[derive(Drop)]
pub struct LiveSubscriber {
    pub track: u32,
    pub feed: Box<Feed>,
    pub resent: u64,
}

/// Returns how many of these subscribers belong to this track.
pub fn count_on(subscribers: &IndexMap<u32, LiveSubscriber>, track: u32) -> usize
    ensures { result ≤ index_map_len subscribers.now }
{
    let mut count = 0;
    for place in 0..subscribers.len() {
        if let Some((_, known)) = subscribers.get_index(place) {
            if known.track == track {
                count += 1;
            }
        }
    }
    count
}
