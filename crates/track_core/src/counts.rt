// The counters of a track.
ghost use Rattle.std.specs.Prelude.{◌≡◌, ◌<◌, ◌^◌, ℕ, Option};
ghost use Rattle.track_core.specs.Counts.{add_where, and_gone, counted_item, counts_by, framed_once, no_tally};

use reorder_window::Item;

/// The counters of a track. All of them start at 0 when the track is published (own rule). No counter overflows, because the unwrapped sequence numbers of
/// a track are below 2^46.
#[derive(Clone, Copy, Debug, PartialEq, Eq)]
pub struct TrackCounts {
    /// The number of packets that the reorder window has returned.
    pub arrived: u64,
    /// The number of sequence numbers that were given up.
    pub given_up: u64,
    /// The number of complete frames that the track has made. On a plain track, it is 0.
    pub frames: u64,
    /// The number of key frames among the complete frames that the track has made.
    pub key_frames: u64,
    /// The number of packets that the reorder window has returned, except those in complete frames that the track has made. Each packet counted here is
    /// padding or unreadable, or it belongs to a frame that the track hasn't made. That frame is torn, isn't complete yet, or has a number that isn't above
    /// the newest frame number. On a plain track, this counter is 0.
    pub unframed: u64,
}

/// The counters that a track keeps. [`TrackCounts`] is computed from them.
#[derive(Clone, Copy, Debug)]
pub struct Tally {
    /// The number of packets that the reorder window has returned.
    pub arrived: u64,
    /// The number of sequence numbers that were given up.
    pub given_up: u64,
    /// The number of complete frames that the track has made.
    pub frames: u64,
    /// The number of key frames among the complete frames that the track has made.
    pub key_frames: u64,
    /// The number of packets in the complete frames that the track has made.
    pub framed: u64,
}

impl Tally {
    /// Returns the counters before the first item: all are 0.
    pub fn new() -> Tally
        ensures { result ≡ no_tally }
    {
        Tally {
            arrived: 0,
            given_up: 0,
            frames: 0,
            key_frames: 0,
            framed: 0,
        }
    }

    /// Counts an item: one packet, or the sequence numbers that were given up.
    #[inline(always)]
    pub fn add_item(&mut self, item: &Item)
        requires arrived { self.old.arrived < 2 ^ 63 }
        requires given_up { and_gone item.now self.old.given_up < 2 ^ 63 }
        ensures { self.new ≡ counted_item item.now self.old }
    {
        match item {
            Item::Got { .. } => self.arrived += 1,
            Item::Gone { from, to } => {
                if *from <= *to {
                    self.given_up += *to - *from + 1;
                }
            }
        }
    }

    /// Counts a complete frame with `packets` packets.
    #[inline(always)]
    pub fn add_frame(&mut self, key: bool, packets: u16)
        requires frames { self.old.frames < 2 ^ 63 }
        requires key_frames { self.old.key_frames < 2 ^ 63 }
        requires framed { self.old.framed < 2 ^ 63 }
        ensures { self.new ≡ framed_once key packets self.old }
    {
        self.frames += 1;
        if key {
            self.key_frames += 1;
        }
        self.framed += u64::from(packets);
    }

    /// Returns the counters of a layered track, or those of a plain track if `layered` is false.
    pub fn counts(&self, layered: bool) -> TrackCounts
        ensures { result ≡ counts_by layered self.now }
    {
        TrackCounts {
            arrived: self.arrived,
            given_up: self.given_up,
            frames: self.frames,
            key_frames: self.key_frames,
            unframed: if layered {
                self.arrived.saturating_sub(self.framed)
            } else {
                0
            },
        }
    }
}
