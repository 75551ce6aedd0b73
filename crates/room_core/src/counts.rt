// Queries for the counters of subscribers and tracks. These queries add no entries to the history.
ghost use Rattle.std.specs.Prelude.{◌≡◌, ◌+◌, List, min};
ghost use Rattle.sfu_base.specs.declared.call.Call.{Call};
ghost use Rattle.room_core.specs.Content.{IsAfter};
ghost use Rattle.room_core.specs.Counts.{counted_frame, greatest_count, no_counts, no_frames};
ghost use Rattle.room_core.specs.CountsOf.{AreSubscriberCounts, AreTrackCounts, HasCounts, subscriber_counts_for, track_counts_at};
ghost use Rattle.room_core.specs.CurrentTargets.{ok_of_subscriber};
ghost use Rattle.room_core.specs.History.{Entry};
ghost use Rattle.room_core.specs.Live.{joined, published};
ghost use Rattle.room_core.specs.Serves.{Stands};
ghost use Rattle.room_core.specs.TrackQuestions.{ok_of_track};

use crate::content::Content;
use crate::feed::Feed;
use crate::recorder::Recorder;
use crate::room::Room;
use sfu_base::{Refusal, Verdict};
use track_core::TrackCounts;

/// The counters of a subscriber since its join. The first seven counters count frames by the verdict that [`Room::why`] returns. On a plain track, these
/// seven are 0. A counter that reaches 2^64 - 1 stays there. Own rule.
#[derive(Clone, Copy, Debug, PartialEq, Eq)]
pub struct SubscriberCounts {
    /// The number of frames that were forwarded ([`Verdict::Passed`]).
    pub passed: u64,
    /// The number of frames that were withheld because they don't belong to the target ([`Verdict::NotOfTarget`]).
    pub not_of_target: u64,
    /// The number of frames that were withheld because they refer to a frame before the epoch ([`Verdict::Behind`]).
    pub behind: u64,
    /// The number of frames that were withheld because they refer to a frame that wasn't forwarded ([`Verdict::Reference`]).
    pub reference: u64,
    /// The number of frames that were withheld because the queue was too full ([`Verdict::Full`]).
    pub full: u64,
    /// The number of frames that were withheld because the target's chain was broken ([`Verdict::Link`]).
    pub link: u64,
    /// The number of frames that were withheld because no target was open ([`Verdict::Unopened`]).
    pub unopened: u64,
    /// The number of packets that were ever queued. Packets that were taken from the queue count too.
    pub queued: u64,
    /// The number of packets that were taken from the queue.
    pub taken: u64,
    /// The number of retransmitted packets.
    pub resent: u64,
    /// The number of packets of a plain track that weren't queued because 512 packets were queued already.
    pub left_out: u64,
    /// The number of packets that are queued now, at most 512.
    pub waiting: u64,
}

/// The number of frames with each verdict.
#[derive(Clone, Copy, Debug)]
pub struct FrameCounts {
    pub passed: u64,
    pub not_of_target: u64,
    pub behind: u64,
    pub reference: u64,
    pub full: u64,
    pub link: u64,
    pub unopened: u64,
}

impl FrameCounts {
    /// Returns the counters before the first frame, which are all 0.
    pub fn new() -> FrameCounts
        ensures { result ≡ no_frames }
    {
        FrameCounts {
            passed: 0,
            not_of_target: 0,
            behind: 0,
            reference: 0,
            full: 0,
            link: 0,
            unopened: 0,
        }
    }

    /// Counts a frame with this verdict.
    #[inline(always)]
    pub fn count(&mut self, verdict: Verdict)
        ensures { self.new ≡ counted_frame verdict self.old }
    {
        match verdict {
            Verdict::Passed => count_one(&mut self.passed),
            Verdict::NotOfTarget { .. } => count_one(&mut self.not_of_target),
            Verdict::Behind { .. } => count_one(&mut self.behind),
            Verdict::Reference { .. } => count_one(&mut self.reference),
            Verdict::Full { .. } => count_one(&mut self.full),
            Verdict::Link { .. } => count_one(&mut self.link),
            Verdict::Unopened { .. } => count_one(&mut self.unopened),
            // Only frame numbers without a frame have this verdict.
            Verdict::Hole { .. } => {}
        }
    }
}

/// The counters of a feed.
#[derive(Clone, Copy, Debug)]
pub struct FeedCounts {
    pub frames: FrameCounts,
    pub taken: u64,
    pub left_out: u64,
}

impl FeedCounts {
    /// Returns the counters before the first event, which are all 0.
    pub fn new() -> FeedCounts
        ensures { result ≡ no_counts }
    {
        FeedCounts {
            frames: FrameCounts::new(),
            taken: 0,
            left_out: 0,
        }
    }
}

/// Adds 1 to the counter, unless the counter is 2^64 - 1.
#[inline(always)]
pub fn count_one(count: &mut u64)
    ensures { count.new ≡ min (count.old + 1) greatest_count }
{
    if *count < u64::MAX {
        *count += 1;
    }
}

impl<R: Recorder> Room<R> {
    /// Returns the subscriber's counters since its join. After the end of the subscriber's track, the counters of frames don't change. This query
    /// adds no entry to the history, changes nothing, and allocates no memory. `NoSubscriber`: no live subscriber has the number. Own rule.
    pub fn subscriber_counts(&self, subscriber: u32) -> Result<SubscriberCounts, Refusal>
        ensures counts { (history : List Entry) → Stands R.noted self.now history → AreSubscriberCounts history subscriber result }
    {
        self.content.subscriber_counts(subscriber)
    }

    /// Returns the track's counters since its publish. This query adds no entry to the history, changes nothing, and allocates no memory. `NoTrack`:
    /// no live track has the number. Own rule.
    pub fn track_counts(&self, track: u32) -> Result<TrackCounts, Refusal>
        ensures counts { (history : List Entry) → Stands R.noted self.now history → AreTrackCounts history track result }
    {
        self.content.track_counts(track)
    }
}

impl Content {
    /// Returns the subscriber's counters.
    pub fn subscriber_counts(&self, subscriber: u32) -> Result<SubscriberCounts, Refusal>
        ensures { (past : List Call) → IsAfter self.now past → result ≡ ok_of_subscriber (joined subscriber past) (λ j. subscriber_counts_for subscriber j past) }
    {
        match self.subscribers.get(&subscriber) {
            Some(known) => Ok(known.feed.counts(known.resent)),
            None => Err(Refusal::NoSubscriber),
        }
    }

    /// Returns the track's counters.
    pub fn track_counts(&self, track: u32) -> Result<TrackCounts, Refusal>
        ensures { (past : List Call) → IsAfter self.now past → result ≡ ok_of_track (published track past) (track_counts_at track past) }
    {
        match self.tracks.get(&track) {
            Some(known) => Ok(known.pipeline.counts()),
            None => Err(Refusal::NoTrack),
        }
    }
}

impl Feed {
    /// Returns the subscriber's counters. `resent` is the number of packets that were retransmitted to the subscriber.
    pub fn counts(&self, resent: u64) -> SubscriberCounts
        ensures counts { HasCounts self.now resent result }
    {
        let waiting = self.ring.queued() as u64;
        let queued = self.counts.taken.saturating_add(waiting);
        SubscriberCounts {
            passed: self.counts.frames.passed,
            not_of_target: self.counts.frames.not_of_target,
            behind: self.counts.frames.behind,
            reference: self.counts.frames.reference,
            full: self.counts.frames.full,
            link: self.counts.frames.link,
            unopened: self.counts.frames.unopened,
            queued,
            taken: self.counts.taken,
            resent,
            left_out: self.counts.left_out,
            waiting,
        }
    }
}
