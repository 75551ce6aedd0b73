// Calls on a live track.
ghost use Rattle.std.specs.Prelude.{◌≡◌, ◌≢◌, List, false, ℕ};
ghost use Rattle.sfu_base.specs.Answer.{is_starved};
ghost use Rattle.sfu_base.specs.declared.call.Call.{Call};
ghost use Rattle.sfu_base.specs.declared.call.Call.TheVariants as call;
ghost use Rattle.sfu_base.specs.declared.call.Reply.TheVariants as reply;
ghost use Rattle.room_core.specs.Content.{Does, DoesSilently, IsAfter};
ghost use Rattle.room_core.specs.Indexed.{HasPlaces, tracks_of};
ghost use Rattle.room_core.specs.Views.{has_waiting};

use crate::content::Content;
use crate::passing::{waits, work_off};
use crate::table::place_of;
use place_set::PlaceSet;
use sfu_base::{Kind, PacketBuf, Refusal, Reply, SeqList};

impl Content {
    /// Ends the track. The track's subscribers stay.
    pub fn unpublish(&mut self, track: u32) -> Reply
        ensures does { DoesSilently self.old self.new (call.Unpublish track) result }
        ensures fed { is_starved result ≡ false }
        ensures sends_none { result ≢ reply.Packet }
    {
        match self.tracks.swap_remove(&track) {
            Some(_) => Reply::Done,
            None => Reply::Refused(Refusal::NoTrack),
        }
    }

    /// Adds a packet to the track. Then offers the packets that are now in order (plain track), or the frames that are now complete (layered track), to
    /// the track's subscribers.
    #[inline(always)]
    pub fn packet(&mut self, track: u32, moment: u64, bytes: &PacketBuf) -> Reply
        ensures does { DoesSilently self.old self.new (call.Packet track moment bytes.now) result }
        ensures fed { is_starved result ≡ false }
        ensures sends_none { result ≢ reply.Packet }
    {
        let Some(place) = place_of(&self.tracks, self.last_track, track) else {
            return Reply::Refused(Refusal::NoTrack);
        };
        self.last_track = place;
        match self.tracks.get_index_mut(place) {
            Some(known) => match known.pipeline.arrive(moment, bytes.bytes()) {
                Ok(()) => {
                    work_off(
                        &mut *known.pipeline,
                        &mut known.pleaded,
                        track,
                        &mut self.subscribers,
                        &known.places,
                        &mut *known.frame_cache,
                    );
                    Reply::Done
                }
                Err(why) => Reply::Refused(why),
            },
            // `place_of` returns only places that are in the table.
            None => unreachable!(),
        }
    }

    /// Advances the track's time. Then offers the packets that are now in order (plain track), or the frames that are now complete (layered track), to
    /// the track's subscribers.
    pub fn tick(&mut self, track: u32, moment: u64) -> Reply
        ensures does { DoesSilently self.old self.new (call.Tick track moment) result }
        ensures fed { is_starved result ≡ false }
        ensures sends_none { result ≢ reply.Packet }
    {
        let Some(place) = place_of(&self.tracks, self.last_track, track) else {
            return Reply::Refused(Refusal::NoTrack);
        };
        self.last_track = place;
        match self.tracks.get_index_mut(place) {
            Some(known) => {
                known.pipeline.tick(moment);
                work_off(
                    &mut *known.pipeline,
                    &mut known.pleaded,
                    track,
                    &mut self.subscribers,
                    &known.places,
                    &mut *known.frame_cache,
                );
                Reply::Done
            }
            // `place_of` returns only places that are in the table.
            None => unreachable!(),
        }
    }

    /// Replaces the contents of `out` with the sequence numbers of the packets for which the track waits.
    pub fn missing(&self, track: u32, out: &mut SeqList) -> Reply
        ensures does { (bytes : List ℕ) → Does self.now self.now (call.Missing track) result bytes out.new }
        ensures fed { is_starved result ≡ false }
        ensures sends_none { result ≢ reply.Packet }
        ensures untouched { result ≢ reply.Names → out.new ≡ out.old }
    {
        match self.tracks.get(&track) {
            Some(known) => {
                known.pipeline.missing(out);
                Reply::Names
            }
            None => Reply::Refused(Refusal::NoTrack),
        }
    }

    /// Replies whether a key frame should be requested from the track's publisher.
    pub fn key_wanted(&self, track: u32) -> Reply
        ensures does { DoesSilently self.now self.now (call.KeyWanted track) result }
        ensures fed { is_starved result ≡ false }
        ensures sends_none { result ≢ reply.Packet }
    {
        match self.tracks.get(&track) {
            Some(known) => match known.kind {
                Kind::Plain => Reply::Key { wanted: false },
                Kind::Layered { .. } => Reply::Key {
                    wanted: known.pleaded || self.has_waiting(track, &known.places),
                },
            },
            None => Reply::Refused(Refusal::NoTrack),
        }
    }

    // Returns whether a live subscriber of the track has no current target.
    fn has_waiting(&self, track: u32, places: &PlaceSet) -> bool
        requires { HasPlaces places.now track (tracks_of self.now.subscribers.entries) }
        ensures { (past : List Call) → IsAfter self.now past → result ≡ has_waiting track past }
    {
        waits(&self.subscribers, places, track)
    }
}
