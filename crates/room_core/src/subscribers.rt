// Calls on a live subscriber.
ghost use Rattle.std.specs.Prelude.{◌≡◌, ◌≢◌, ◌<◌, List, false, nat_eq, ℕ};
ghost use Rattle.indexmap.specs.IndexMap.{get, index_map_len};
ghost use Rattle.sfu_base.specs.Answer.{is_starved};
ghost use Rattle.sfu_base.specs.declared.call.Call.TheVariants as call;
ghost use Rattle.sfu_base.specs.declared.call.Reply.TheVariants as reply;
ghost use Rattle.sfu_base.specs.declared.call.Call.{Call};
ghost use Rattle.room_core.specs.Content.{Does, DoesSilently, IsAfter};
ghost use Rattle.room_core.specs.Indexed.{AreSameBut};
ghost use Rattle.room_core.specs.Kinds.{kind_joined};
ghost use Rattle.room_core.specs.Live.{joined};
ghost use Rattle.room_core.specs.Sendable.{IsSendable};

use crate::content::Content;
use crate::counts::count_one;
use crate::feed::Feed;
use crate::live::{LiveSubscriber, LiveTrack, count_on};
use crate::table::place_of;
use crate::track_places::move_last;
use indexmap::IndexMap;
use sfu_base::{Kind, PacketBuf, Refusal, Reply, Wish};

impl Content {
    /// Removes the subscriber.
    pub fn leave(&mut self, subscriber: u32) -> Reply
        ensures does { DoesSilently self.old self.new (call.Leave subscriber) result }
        ensures fed { is_starved result ≡ false }
        ensures sends_none { result ≢ reply.Packet }
    {
        match self.subscribers.swap_remove_full(&subscriber) {
            Some((place, _, LiveSubscriber { track, feed, .. })) => {
                let left = count_on(&self.subscribers, track);
                end_feed(&mut self.tracks, track, place, feed, left);
                move_last(&mut self.tracks, &self.subscribers, place);
                Reply::Done
            }
            None => Reply::Refused(Refusal::NoSubscriber),
        }
    }

    /// Changes the subscriber's wish.
    pub fn aim(&mut self, subscriber: u32, wish: Wish) -> Reply
        ensures does { DoesSilently self.old self.new (call.Aim subscriber wish) result }
        ensures fed { is_starved result ≡ false }
        ensures sends_none { result ≢ reply.Packet }
    {
        match self.subscribers.get_mut(&subscriber) {
            Some(known) => {
                known.feed.aim(wish);
                Reply::Done
            }
            None => Reply::Refused(Refusal::NoSubscriber),
        }
    }

    /// Removes the oldest packet from the subscriber's queue, and writes it to `out`.
    #[inline(always)]
    pub fn take(&mut self, subscriber: u32, out: &mut PacketBuf) -> Reply
        ensures does { (numbers : List ℕ) → Does self.old self.new (call.Take subscriber) result out.new numbers }
        ensures fed { is_starved result ≡ false }
        ensures untouched { result ≢ reply.Packet → out.new ≡ out.old }
        ensures sendable { result ≡ reply.Packet → IsSendable out.new }
    {
        let Some(place) = place_of(&self.subscribers, self.last_taker, subscriber) else {
            return Reply::Refused(Refusal::NoSubscriber);
        };
        self.last_taker = place;
        match self.subscribers.get_index_mut(place) {
            Some(known) => {
                if known.feed.take(out) {
                    Reply::Packet
                } else {
                    Reply::Refused(Refusal::Empty)
                }
            }
            // `place_of` returns only places that are in the table.
            None => unreachable!(),
        }
    }

    /// Finds the packet with this sequence number that the subscriber took before. If the packet is still kept for retransmission, writes it to `out`.
    pub fn resend(&mut self, subscriber: u32, seq: u16, out: &mut PacketBuf) -> Reply
        ensures does { (numbers : List ℕ) → Does self.old self.new (call.Resend subscriber seq) result out.new numbers }
        ensures fed { is_starved result ≡ false }
        ensures untouched { result ≢ reply.Packet → out.new ≡ out.old }
        ensures sendable { result ≡ reply.Packet → IsSendable out.new }
    {
        match self.subscribers.get_mut(&subscriber) {
            Some(known) => match known.feed.resend(seq, out) {
                Ok(()) => {
                    count_one(&mut known.resent);
                    Reply::Packet
                }
                Err(why) => Reply::Refused(why),
            },
            None => Reply::Refused(Refusal::NoSubscriber),
        }
    }

    /// Records that the subscriber has requested a key frame.
    pub fn plead(&mut self, subscriber: u32) -> Reply
        ensures does { DoesSilently self.old self.new (call.Plead subscriber) result }
        ensures fed { is_starved result ≡ false }
        ensures sends_none { result ≢ reply.Packet }
    {
        let track = match self.subscribers.get(&subscriber) {
            Some(known) => known.track,
            None => return Reply::Refused(Refusal::NoSubscriber),
        };
        match self.tracks.get_mut(&track) {
            Some(known) => match known.kind {
                Kind::Plain => Reply::Refused(Refusal::Plain),
                Kind::Layered { .. } => {
                    known.pleaded = true;
                    Reply::Done
                }
            },
            None => Reply::Refused(Refusal::NoTrack),
        }
    }

    /// Replies with the reason why a frame was or wasn't forwarded to the subscriber.
    pub fn why(&self, subscriber: u32, number: u64) -> Reply
        ensures does { DoesSilently self.now self.now (call.Why subscriber number) result }
        ensures fed { is_starved result ≡ false }
        ensures sends_none { result ≢ reply.Packet }
    {
        match self.subscribers.get(&subscriber) {
            Some(known) => match known.feed.why(number) {
                Ok(verdict) => Reply::Cause(verdict),
                Err(why) => Reply::Refused(why),
            },
            None => Reply::Refused(Refusal::NoSubscriber),
        }
    }

    /// Returns the kind of the track that the subscriber joined, or `None` if no live subscriber has this number.
    pub fn kind_of(&self, subscriber: u32) -> Option<Kind>
        ensures { (past : List Call) → IsAfter self.now past → result ≡ kind_joined (joined subscriber past) past }
    {
        self.subscribers
            .get(&subscriber)
            .map(|known| known.feed.kind)
    }
}

// Ends the feed of a removed subscriber. If the track is live, removes the subscriber's place from the track's set of places, and releases the feed's
// shared packets to the track's cache. `left` is the number of subscribers that remain on the track.
fn end_feed(
    tracks: &mut IndexMap<u32, LiveTrack>,
    track: u32,
    place: usize,
    feed: Box<Feed>,
    left: usize,
)
    requires { place < 256 }
    ensures changed { AreSameBut place (get nat_eq tracks.old) (get nat_eq tracks.new) }
    ensures count { index_map_len tracks.new ≡ index_map_len tracks.old }
{
    if let Some(known) = tracks.get_mut(&track) {
        known.places.take(place);
        Box::into_inner(feed).release(&mut *known.frame_cache, left);
    }
}
