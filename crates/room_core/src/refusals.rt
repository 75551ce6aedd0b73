// The refusals of publishing a track and of joining a subscriber.
ghost use Rattle.std.specs.Prelude.{◌≡◌, IfSome, false, is_some, nat_eq};
ghost use Rattle.indexmap.specs.IndexMap.{get, index_map_len};
ghost use Rattle.sfu_base.specs.Answer.{is_memory};
ghost use Rattle.room_core.specs.Content.{refusal_to_join, refusal_to_publish};
ghost use Rattle.room_core.specs.Replies.{is_bad_id};

use crate::content::Content;
use sfu_base::{Kind, Refusal};

/// The largest number of live tracks (own rule).
const MOST_TRACKS: usize = 64;

/// The largest number of live subscribers (own rule).
const MOST_SUBSCRIBERS: usize = 256;

/// The id that stands for padding between header extension elements (RFC 8285, sections 4.2 and 4.3).
const PADDING_ID: u8 = 0;

/// The id at which the processing of header extension elements stops (RFC 8285, section 4.2).
const LAST_ID: u8 = 15;

impl Content {
    /// Returns the first refusal that applies if this track is published now, or `None` if no refusal applies.
    pub fn publish_refusal(&self, track: u32, kind: Kind) -> Option<Refusal>
        ensures fed { IfSome result (λ why. is_memory why ≡ false) }
        ensures refusal { result ≡ refusal_to_publish self.now track kind }
    {
        if track <= self.highest_track {
            return Some(Refusal::NumberUsed {
                highest: self.highest_track,
            });
        }
        let live = self.tracks.len();
        if live >= MOST_TRACKS {
            return Some(Refusal::TooMany { live: live as u32 });
        }
        if has_bad_id(kind) {
            return Some(Refusal::BadExtensionId);
        }
        None
    }

    /// Returns the first refusal that applies if this subscriber joins the track now, or `None` if no refusal applies.
    pub fn join_refusal(&self, subscriber: u32, track: u32) -> Option<Refusal>
        ensures fed { IfSome result (λ why. is_memory why ≡ false) }
        ensures refusal { result ≡ refusal_to_join self.now subscriber track }
    {
        if !self.tracks.contains_key(&track) {
            return Some(Refusal::NoTrack);
        }
        if subscriber <= self.highest_subscriber {
            return Some(Refusal::NumberUsed {
                highest: self.highest_subscriber,
            });
        }
        let live = self.subscribers.len();
        if live >= MOST_SUBSCRIBERS {
            return Some(Refusal::TooMany { live: live as u32 });
        }
        None
    }
}

// Returns whether a layered track has the id of padding, or the id at which processing stops. Returns false for a plain track.
fn has_bad_id(kind: Kind) -> bool
    ensures { result ≡ is_bad_id kind }
{
    match kind {
        Kind::Plain => false,
        Kind::Layered { id } => id == PADDING_ID || id == LAST_ID,
    }
}
