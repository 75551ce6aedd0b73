// Questions about a subscriber or a track. A question isn't a call: it reads the handle and the room, and doesn't write to either. So the handle is const in
// C. Here the handle is `&mut`, since an exported function can't read through a `&` to a value that owns memory. A question returns `NoRoom` if the handle
// has no room.
ghost use Rattle.std.specs.Prelude.{◌≡◌, ◌<◌};
ghost use Rattle.room_c.specs.Codes.{code_number};
ghost use Rattle.room_c.specs.Reading.{number_in, reached_in, target_in};
ghost use Rattle.room_c.specs.Serving.{AsksDue, AsksNewest, AsksReached, AsksTarget};
ghost use Rattle.room_c.specs.Numbers.{number_reply, reached_reply, target_reply, target_written};

use crate::code::Code;
use crate::handle::Handle;
use crate::plain_reply::PlainReply;
use crate::plain_target::PlainTarget;
use room_core::DecodeTarget;
use sfu_base::Refusal;

/// Returns `Target`. `has` says whether the subscriber has a current decode target (see `Room::target_of`). If so, this decode target is written to `out`.
/// Otherwise, and after a refusal, `out` is unchanged. Refusal: `NoSubscriber`.
#[unsafe(no_mangle)]
pub extern "C" fn zoftemar_target_of(
    room: &mut Handle,
    subscriber: u32,
    out: &mut PlainTarget,
) -> PlainReply
    ensures asks { AsksTarget room.old.held.home subscriber result out.old out.new }
    ensures same { room.new.held.home ≡ room.old.held.home }
{
    if !room.has_home() {
        return PlainReply::bare(Code::NoRoom);
    }
    reply_target(room.held.home().bundles.room().target_of(subscriber), out)
}

/// Returns `Reached`. `has` is the result of `Room::reaches_wish`. It says whether the subscriber's current decode target is the best one that the
/// subscriber's wish allows. Refusal: `NoSubscriber`.
#[unsafe(no_mangle)]
pub extern "C" fn zoftemar_reaches_wish(room: &mut Handle, subscriber: u32) -> PlainReply
    ensures asks { AsksReached room.old.held.home subscriber result }
    ensures same { room.new.held.home ≡ room.old.held.home }
{
    if !room.has_home() {
        return PlainReply::bare(Code::NoRoom);
    }
    reply_reached(room.held.home().bundles.room().reaches_wish(subscriber))
}

/// Returns `Due`. `first` is the result of `Room::due`: the earliest moment, in milliseconds, at which `Room::tick` gives up a gap of the track. If there
/// is no such moment, `has` is false. Refusal: `NoTrack`.
#[unsafe(no_mangle)]
pub extern "C" fn zoftemar_due(room: &mut Handle, track: u32) -> PlainReply
    ensures asks { AsksDue room.old.held.home track result }
    ensures same { room.new.held.home ≡ room.old.held.home }
{
    if !room.has_home() {
        return PlainReply::bare(Code::NoRoom);
    }
    reply_number(Code::Due, room.held.home().bundles.room().due(track))
}

/// Returns `Newest`. `first` is the result of `Room::newest_frame`: the unwrapped frame number of the track's newest complete frame. If there is no
/// complete frame, `has` is false. Refusal: `NoTrack`.
#[unsafe(no_mangle)]
pub extern "C" fn zoftemar_newest_frame(room: &mut Handle, track: u32) -> PlainReply
    ensures asks { AsksNewest room.old.held.home track result }
    ensures same { room.new.held.home ≡ room.old.held.home }
{
    if !room.has_home() {
        return PlainReply::bare(Code::NoRoom);
    }
    reply_number(
        Code::Newest,
        room.held.home().bundles.room().newest_frame(track),
    )
}

#[tactic(auto, unfolding(crate::specs::Numbers::target_reply, crate::specs::Numbers::target_written))]
fn reply_target(answer: Result<Option<DecodeTarget>, Refusal>, out: &mut PlainTarget) -> PlainReply
    ensures read_back { target_in result out.new ≡ answer }
    ensures exact { result ≡ target_reply answer }
    ensures written { out.new ≡ target_written answer out.old }
{
    match answer {
        Ok(Some(target)) => {
            *out = PlainTarget::of(&target);
            PlainReply::with_flag(Code::Target, true)
        }
        Ok(None) => PlainReply::with_flag(Code::Target, false),
        Err(why) => PlainReply::of_refusal(why),
    }
}

#[tactic(auto, unfolding(crate::specs::Numbers::reached_reply))]
fn reply_reached(answer: Result<bool, Refusal>) -> PlainReply
    ensures read_back { reached_in result ≡ answer }
    ensures exact { result ≡ reached_reply answer }
{
    match answer {
        Ok(reached) => PlainReply::with_flag(Code::Reached, reached),
        Err(why) => PlainReply::of_refusal(why),
    }
}

#[tactic(auto, unfolding(crate::specs::Numbers::number_reply))]
fn reply_number(code: Code, answer: Result<Option<u64>, Refusal>) -> PlainReply
    requires { code_number code < 32 }
    ensures read_back { number_in (code_number code) result ≡ answer }
    ensures exact { result ≡ number_reply code answer }
{
    match answer {
        Ok(Some(number)) => PlainReply::with(code, number),
        Ok(None) => PlainReply::bare(code),
        Err(why) => PlainReply::of_refusal(why),
    }
}
