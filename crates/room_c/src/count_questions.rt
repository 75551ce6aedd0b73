// Questions about the counts of a subscriber or a track. Like the questions in `questions`, they read the handle and the room, and don't write to either.
ghost use Rattle.std.specs.Prelude.{◌≡◌};
ghost use Rattle.room_c.specs.Reading.{subscriber_counts_in, track_counts_in};
ghost use Rattle.room_c.specs.Serving.{AsksSubscriberCounts, AsksTrackCounts};
ghost use Rattle.room_c.specs.Numbers.{subscriber_counts_reply, subscriber_counts_written, track_counts_reply, track_counts_written};

use crate::code::Code;
use crate::handle::Handle;
use crate::plain_counts::{PlainSubscriberCounts, PlainTrackCounts};
use crate::plain_reply::PlainReply;
use room_core::{SubscriberCounts, TrackCounts};
use sfu_base::Refusal;

/// Writes a subscriber's counts to `out` (see `Room::subscriber_counts`). Counting starts when the subscriber joins. Returns `Counts`. After a refusal, `out`
/// is unchanged. Refusal: `NoSubscriber`.
#[unsafe(no_mangle)]
pub extern "C" fn zoftemar_counts_of_subscriber(
    room: &mut Handle,
    subscriber: u32,
    out: &mut PlainSubscriberCounts,
) -> PlainReply
    ensures asks { AsksSubscriberCounts room.old.held.home subscriber result out.old out.new }
    ensures same { room.new.held.home ≡ room.old.held.home }
{
    if !room.has_home() {
        return PlainReply::bare(Code::NoRoom);
    }
    reply_subscriber(
        room.held
            .home()
            .bundles
            .room()
            .subscriber_counts(subscriber),
        out,
    )
}

/// Writes a track's counts to `out` (see `Room::track_counts`). Counting starts when the track is published. Returns `Counts`. After a refusal, `out` is
/// unchanged. Refusal: `NoTrack`.
#[unsafe(no_mangle)]
pub extern "C" fn zoftemar_counts_of_track(
    room: &mut Handle,
    track: u32,
    out: &mut PlainTrackCounts,
) -> PlainReply
    ensures asks { AsksTrackCounts room.old.held.home track result out.old out.new }
    ensures same { room.new.held.home ≡ room.old.held.home }
{
    if !room.has_home() {
        return PlainReply::bare(Code::NoRoom);
    }
    reply_track(room.held.home().bundles.room().track_counts(track), out)
}

#[tactic(auto, unfolding(crate::specs::Numbers::subscriber_counts_reply, crate::specs::Numbers::subscriber_counts_written))]
fn reply_subscriber(
    answer: Result<SubscriberCounts, Refusal>,
    out: &mut PlainSubscriberCounts,
) -> PlainReply
    ensures read_back { subscriber_counts_in result out.new ≡ answer }
    ensures exact { result ≡ subscriber_counts_reply answer }
    ensures written { out.new ≡ subscriber_counts_written answer out.old }
{
    match answer {
        Ok(counts) => {
            *out = PlainSubscriberCounts::of(&counts);
            PlainReply::bare(Code::Counts)
        }
        Err(why) => PlainReply::of_refusal(why),
    }
}

#[tactic(auto, unfolding(crate::specs::Numbers::track_counts_reply, crate::specs::Numbers::track_counts_written))]
fn reply_track(answer: Result<TrackCounts, Refusal>, out: &mut PlainTrackCounts) -> PlainReply
    ensures read_back { track_counts_in result out.new ≡ answer }
    ensures exact { result ≡ track_counts_reply answer }
    ensures written { out.new ≡ track_counts_written answer out.old }
{
    match answer {
        Ok(counts) => {
            *out = PlainTrackCounts::of(&counts);
            PlainReply::bare(Code::Counts)
        }
        Err(why) => PlainReply::of_refusal(why),
    }
}
