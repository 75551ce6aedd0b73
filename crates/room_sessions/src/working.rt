// Serves the calls of a session on a room.
ghost use Rattle.room_sessions.specs.Working.{HasHistory, Works};

use room_core::{Recorder, Room};
use session_steps::{Output, Session};
use sfu_base::Scratch;

/// Makes the session's calls on the room, all from the seat `seat`, and passes each reply to the session. Stops when the session has a datagram to
/// send, or has no call left. Returns `Packet` if there is a datagram to send; the datagram is in `scratch.packet`. Returns `Nothing` if no call is
/// left; the session then waits for the next datagram.
pub fn work<R: Recorder, S: Session>(
    room: &mut Room<R>,
    seat: u32,
    session: &mut S,
    scratch: &mut Scratch,
) -> Output
    requires history { HasHistory R.noted room.old }
    ensures works { Works R.noted R.may_refuse room.old room.new seat (S.left session.old) (S.left session.new) scratch.new.packet result }
    ensures history { HasHistory R.noted room.new }
{
    while let Some(call) = session.call() {
        let reply = room.serve(seat, call, scratch);
        let output = session.replied(reply, scratch);
        if let Output::Packet = output {
            return Output::Packet;
        }
    }
    Output::Nothing
}
