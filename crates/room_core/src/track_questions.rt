// Queries about a live track. These queries add no entries to the history.
ghost use Rattle.std.specs.Prelude.{◌≡◌, List};
ghost use Rattle.sfu_base.specs.declared.call.Call.{Call};
ghost use Rattle.room_core.specs.Content.{IsAfter};
ghost use Rattle.room_core.specs.History.{Entry};
ghost use Rattle.room_core.specs.Live.{published};
ghost use Rattle.room_core.specs.Serves.{Stands};
ghost use Rattle.room_core.specs.TrackQuestions.{IsDueOf, IsNewestFrameOf, due_at, newest_frame_at, ok_of_track};

use crate::content::Content;
use crate::recorder::Recorder;
use crate::room::Room;
use sfu_base::Refusal;

impl<R: Recorder> Room<R> {
    /// Returns the earliest moment, in milliseconds, at which a tick of the track gives up a gap. That is the moment of the buffered packet with the
    /// lowest unwrapped sequence number, plus the track's hold time. A packet's moment is its arrival, or the track's moment if that was later. Returns
    /// `None` if no packet is buffered, or if the sum is 2^64 or more. This query isn't recorded, doesn't change the room, and allocates no memory.
    /// `NoTrack`: no live track has the number. Own rule.
    pub fn due(&self, track: u32) -> Result<Option<u64>, Refusal>
        ensures due { (history : List Entry) → Stands R.noted self.now history → IsDueOf history track result }
    {
        self.content.due(track)
    }

    /// Returns the unwrapped frame number of the track's newest complete frame. [`Room::why`] takes frame numbers of this kind. Returns `None` if the
    /// track is plain or has no complete frame yet. This query isn't recorded, doesn't change the room, and allocates no memory. `NoTrack`: no live track
    /// has the number. Own rule.
    pub fn newest_frame(&self, track: u32) -> Result<Option<u64>, Refusal>
        ensures newest { (history : List Entry) → Stands R.noted self.now history → IsNewestFrameOf history track result }
    {
        self.content.newest_frame(track)
    }
}

impl Content {
    /// Returns the earliest moment at which a tick of the track gives up a gap.
    pub fn due(&self, track: u32) -> Result<Option<u64>, Refusal>
        ensures { (past : List Call) → IsAfter self.now past → result ≡ ok_of_track (published track past) (due_at track past) }
    {
        match self.tracks.get(&track) {
            Some(known) => Ok(known.pipeline.due()),
            None => Err(Refusal::NoTrack),
        }
    }

    /// Returns the unwrapped frame number of the track's newest complete frame.
    pub fn newest_frame(&self, track: u32) -> Result<Option<u64>, Refusal>
        ensures { (past : List Call) → IsAfter self.now past → result ≡ ok_of_track (published track past) (newest_frame_at track past) }
    {
        match self.tracks.get(&track) {
            Some(known) => Ok(known.pipeline.newest_frame()),
            None => Err(Refusal::NoTrack),
        }
    }
}
