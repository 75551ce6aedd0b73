// A question about a track: which of its subscribers have queued packets? Like the other questions, it reads the handle and the room, and doesn't write to
// either.
ghost use Rattle.std.specs.Prelude.{◌≡◌, ◌≤◌, drop, length, take};
ghost use Rattle.room_c.specs.ReadySubscribers.{AsksReady};

use crate::code::Code;
use crate::handle::Handle;
use crate::plain_reply::PlainReply;

/// Lists the track's subscribers that have queued packets (see `Room::ready`). Their numbers are written to the start of `out`, as many as fit. Each number
/// is written once, and the order isn't specified. Returns `Ready`. `first` is how many numbers were written. If `first` is less than the length of `out`,
/// the list is complete. `NoRoom`: the handle has no room.
#[unsafe(no_mangle)]
pub extern "C" fn zoftemar_ready(room: &mut Handle, track: u32, out: &mut [u32]) -> PlainReply
    ensures asks { AsksReady room.old.held.home track (length out.old) result (take result.first out.new) }
    ensures within { result.first ≤ length out.old }
    ensures rest { drop result.first out.new ≡ drop result.first out.old }
    ensures same { room.new.held.home ≡ room.old.held.home }
{
    if !room.has_home() {
        return PlainReply::bare(Code::NoRoom);
    }
    let count = room.held.home().bundles.room().ready(track, out);
    PlainReply::with(Code::Ready, count as u64)
}
