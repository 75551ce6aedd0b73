// Calls that begin tracks and subscribers. All memory is allocated before the room changes.
ghost use Rattle.std.specs.Prelude.{◌≡◌, ◌≢◌, [], IfOk, List, OnErr, false, ℕ};
ghost use Rattle.sfu_base.specs.Answer.{is_starved};
ghost use Rattle.sfu_base.specs.declared.call.Call.{Call};
ghost use Rattle.sfu_base.specs.declared.call.Call.TheVariants as call;
ghost use Rattle.sfu_base.specs.declared.call.Reply.TheVariants as reply;
ghost use Rattle.sfu_base.specs.declared.call.Kind.{Kind};
ghost use Rattle.sfu_base.specs.declared.frame.Wish.{Wish};
ghost use Rattle.room_core.specs.Content.{DoesSilently, IsAcceptedAfter, IsAfter, IsSubscriberReady, IsTrackReady};
ghost use Rattle.room_core.specs.WellFormed.{IsValue};

use crate::content::Content;
use crate::feed::Feed;
use crate::live::{LiveSubscriber, LiveTrack, count_on};
use crate::track_places::put_place;
use frame_cache::FrameCache;
use indexmap::IndexMap;
use place_set::PlaceSet;
use sfu_base::{Kind, NoMemory, Refusal, Reply, Wish};
use std::alloc::Global;
use track_core::Track;

impl Content {
    /// Creates the tables of a room on which no call has been made. Allocates no memory.
    pub fn new(alloc: Global) -> Content
        ensures { IsAfter result [] }
    {
        Content {
            tracks: IndexMap::new(alloc),
            highest_track: 0,
            subscribers: IndexMap::new(alloc),
            highest_subscriber: 0,
            last_track: 0,
            last_taker: 0,
        }
    }

    /// Allocates the memory for a new track: the pipeline, the frame cache and the table entry. Returns the new track, or the reason for the refusal.
    /// Returns `NoMemory` if memory runs out. This method and the next three aren't inlined. Other calls therefore need no stack space for a track or a
    /// subscriber.
    #[inline(never)]
    pub fn prepare_track(
        &mut self,
        alloc: Global,
        track: u32,
        kind: Kind,
        ssrc: u32,
        hold: u32,
    ) -> Result<Result<LiveTrack, Refusal>, NoMemory>
        ensures same { (past : List Call) → IsAfter self.old past → IsAfter self.new past }
        ensures ready { IfOk result (IsTrackReady self.new track kind ssrc hold) }
        ensures last { OnErr result (IsAcceptedAfter self.old (call.Publish track kind ssrc hold)) }
    {
        if let Some(why) = self.publish_refusal(track, kind) {
            return Ok(Err(why));
        }
        let pipeline = Track::new(alloc, kind, ssrc, hold)?;
        let Ok(pipeline) = Box::new(alloc, pipeline) else {
            return Err(NoMemory);
        };
        let Ok(frame_cache) = Box::new(alloc, FrameCache::new(alloc)?) else {
            return Err(NoMemory);
        };
        match self.tracks.reserve(1) {
            Ok(()) => Ok(Ok(LiveTrack {
                kind,
                pleaded: false,
                pipeline,
                frame_cache,
                places: PlaceSet::new(),
            })),
            Err(_) => Err(NoMemory),
        }
    }

    /// Allocates the memory for a new subscriber: the feed, the table entry, and buffers in the track's store. Returns the new subscriber, or the reason
    /// for the refusal. Returns `NoMemory` if memory runs out.
    #[inline(never)]
    pub fn prepare_subscriber(
        &mut self,
        alloc: Global,
        subscriber: u32,
        track: u32,
        ssrc: u32,
        first: u16,
        wish: Wish,
    ) -> Result<Result<LiveSubscriber, Refusal>, NoMemory>
        ensures same { (past : List Call) → IsAfter self.old past → IsAfter self.new past }
        ensures ready { IfOk result (IsSubscriberReady self.new subscriber track ssrc first wish) }
        ensures last { OnErr result (IsAcceptedAfter self.old (call.Join subscriber track ssrc first wish)) }
        ensures value { IsValue (call.Join subscriber track ssrc first wish) }
    {
        if let Some(why) = self.join_refusal(subscriber, track) {
            return Ok(Err(why));
        }
        let others = count_on(&self.subscribers, track);
        let Some(known) = self.tracks.get_mut(&track) else {
            // The track is live, because otherwise `join_refusal` would have refused the join.
            unreachable!();
        };
        known.frame_cache.reserve(alloc, others + 1)?;
        let feed = Feed::new(alloc, known.kind, ssrc, first, wish)?;
        let Ok(feed) = Box::new(alloc, feed) else {
            return Err(NoMemory);
        };
        match self.subscribers.reserve(1) {
            Ok(()) => Ok(Ok(LiveSubscriber {
                track,
                feed,
                resent: 0,
            })),
            Err(_) => Err(NoMemory),
        }
    }

    /// Adds the prepared track to the room. If `ready` is a refusal, replies with this refusal.
    #[inline(never)]
    pub fn publish(&mut self, track: u32, ready: Result<LiveTrack, Refusal>) -> Reply
        requires { (kind : Kind) × (ssrc : ℕ) × (hold : ℕ) × IsTrackReady self.old track kind ssrc hold ready }
        ensures does { (kind : Kind) (ssrc hold : ℕ) → IsTrackReady self.old track kind ssrc hold ready
            → DoesSilently self.old self.new (call.Publish track kind ssrc hold) result }
        ensures fed { is_starved result ≡ false }
        ensures sends_none { result ≢ reply.Packet }
    {
        match ready {
            Ok(live) => match self.tracks.insert(track, live) {
                Ok(_) => {
                    self.highest_track = track;
                    Reply::Done
                }
                // The table has capacity for one more entry, so the insertion can't fail.
                Err(_) => unreachable!(),
            },
            Err(why) => Reply::Refused(why),
        }
    }

    /// Adds the prepared subscriber to the room. If `ready` is a refusal, replies with this refusal.
    #[inline(never)]
    pub fn join(&mut self, subscriber: u32, ready: Result<LiveSubscriber, Refusal>) -> Reply
        requires { (track : ℕ) × (ssrc : ℕ) × (first : ℕ) × (wish : Wish) × IsSubscriberReady self.old subscriber track ssrc first wish ready }
        ensures does { (track ssrc first : ℕ) (wish : Wish) → IsSubscriberReady self.old subscriber track ssrc first wish ready
            → DoesSilently self.old self.new (call.Join subscriber track ssrc first wish) result }
        ensures fed { is_starved result ≡ false }
        ensures sends_none { result ≢ reply.Packet }
    {
        match ready {
            Ok(live) => {
                let track = live.track;
                match self.subscribers.insert_full(subscriber, live) {
                    Ok((place, _)) => {
                        self.highest_subscriber = subscriber;
                        put_place(&mut self.tracks, track, place);
                        Reply::Done
                    }
                    // The table has capacity for one more entry, so the insertion can't fail.
                    Err(_) => unreachable!(),
                }
            }
            Err(why) => Reply::Refused(why),
        }
    }
}
