// The counts of a subscriber and of a track, in the form that C reads.
ghost use Rattle.std.specs.Prelude.{◌≡◌};
ghost use Rattle.room_c.specs.Reading.{subscriber_counts_of, track_counts_of};
ghost use Rattle.room_c.specs.Numbers.{plain_subscriber_counts, plain_track_counts};

use room_core::{SubscriberCounts, TrackCounts};

/// The counts of a subscriber since it joined (see `SubscriberCounts` of `room_core`). A count that reaches 2^64 - 1 stays at this value.
#[repr(C)]
#[derive(Clone, Copy, Debug)]
pub struct PlainSubscriberCounts {
    /// The number of frames that were forwarded.
    pub passed: u64,
    /// The number of frames that were withheld because they aren't present in the decode target.
    pub not_of_target: u64,
    /// The number of frames that were withheld because they refer to a frame before the epoch.
    pub behind: u64,
    /// The number of frames that were withheld because they refer to a frame that wasn't forwarded.
    pub reference: u64,
    /// The number of frames that were withheld because the queue was too full.
    pub full: u64,
    /// The number of frames that were withheld because the chain of the decode target was broken.
    pub link: u64,
    /// The number of frames that were withheld because no decode target was open.
    pub unopened: u64,
    /// The number of packets that were queued. It includes the packets that were taken later.
    pub queued: u64,
    /// The number of packets that were taken.
    pub taken: u64,
    /// The number of retransmissions.
    pub resent: u64,
    /// On a plain track, the number of packets that weren't queued because 512 packets were queued already.
    pub left_out: u64,
    /// The number of packets that are queued now. The maximum is 512.
    pub waiting: u64,
    /// Reserved for later counts. All items are 0.
    pub spare: [u64; 4],
}

/// The counts of a track since it was published (see `TrackCounts` of `track_core`).
#[repr(C)]
#[derive(Clone, Copy, Debug)]
pub struct PlainTrackCounts {
    /// The number of packets that the track's reorder window has returned.
    pub arrived: u64,
    /// The number of missing sequence numbers that the track gave up.
    pub given_up: u64,
    /// The number of complete frames. On a plain track, this count is 0.
    pub frames: u64,
    /// The number of complete key frames.
    pub key_frames: u64,
    /// The number of packets that count in `arrived` and belong to no complete frame. On a plain track, this count is 0.
    pub unframed: u64,
    /// Reserved for later counts. All items are 0.
    pub spare: [u64; 3],
}

impl PlainSubscriberCounts {
    /// Returns the same counts in the form that C reads. Different counts give different results.
    pub fn of(counts: &SubscriberCounts) -> PlainSubscriberCounts
        ensures read_back { subscriber_counts_of result ≡ counts.now }
        ensures exact { result ≡ plain_subscriber_counts counts.now }
    {
        PlainSubscriberCounts {
            passed: counts.passed,
            not_of_target: counts.not_of_target,
            behind: counts.behind,
            reference: counts.reference,
            full: counts.full,
            link: counts.link,
            unopened: counts.unopened,
            queued: counts.queued,
            taken: counts.taken,
            resent: counts.resent,
            left_out: counts.left_out,
            waiting: counts.waiting,
            spare: [0; 4],
        }
    }
}

impl PlainTrackCounts {
    /// Returns the same counts in the form that C reads. Different counts give different results.
    pub fn of(counts: &TrackCounts) -> PlainTrackCounts
        ensures read_back { track_counts_of result ≡ counts.now }
        ensures exact { result ≡ plain_track_counts counts.now }
    {
        PlainTrackCounts {
            arrived: counts.arrived,
            given_up: counts.given_up,
            frames: counts.frames,
            key_frames: counts.key_frames,
            unframed: counts.unframed,
            spare: [0; 3],
        }
    }
}
