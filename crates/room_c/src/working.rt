// Serves the calls of a session on a room with bundles.
ghost use Rattle.room_c.specs.Recording.{HasState};
ghost use Rattle.room_c.specs.Attending.{WorksFor};

use room_core::KeepNone;
use session_steps::{Output, Session};
use sfu_base::Scratch;
use simulcast::{BundleFault, Bundles};

/// Makes the session's calls on the room, all from the seat `seat`, and passes each reply to the session. Stops when the session has a datagram to send, or
/// has no call left. `Packet`: the datagram to send is in `scratch.packet`. `Nothing`: no call is left, and the session waits for the next datagram.
/// `Bound`: a bundle forbids the session's next call. That call wasn't made; the calls before it were made.
pub fn work<S: Session>(
    bundles: &mut Bundles<KeepNone>,
    seat: u32,
    session: &mut S,
    scratch: &mut Scratch,
) -> Result<Output, BundleFault>
    requires state { HasState bundles.old }
    ensures works { WorksFor bundles.old bundles.new seat (S.left session.old) (S.left session.new) scratch.new.packet result }
    ensures state { HasState bundles.new }
{
    while let Some(call) = session.call() {
        match bundles.call(seat, call, scratch) {
            Ok(reply) => {
                let output = session.replied(reply, scratch);
                if let Output::Packet = output {
                    return Ok(Output::Packet);
                }
            }
            Err(why) => return Err(why),
        }
    }
    Ok(Output::Nothing)
}
