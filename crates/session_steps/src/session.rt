// A session as a state machine, without input and output.
ghost use Rattle.std.specs.Prelude.{◌≡◌, ℕ, suc, ◌<◌, MatchOption};
ghost use Rattle.sfu_base.specs.Answer.{answer_of};
ghost use Rattle.sfu_base.specs.Links.{datagram};
ghost use Rattle.session_steps.specs.Sessions.{Doing};
ghost use Rattle.session_steps.specs.Stepping.{Asks, GoesOn, IsReplyIn, Waits, answered, heard};

use sfu_base::{Call, Reply, Scratch};

/// What the caller sends after a step of a session, and before the next step.
#[derive(Clone, Copy, Debug, PartialEq, Eq)]
pub enum Output {
    /// There is nothing to send.
    Nothing,
    /// The packet in `scratch.packet` is to be sent, as one datagram.
    Packet,
}

/// A session between two steps (own rule). If the session has a call, the caller makes this call on the room and passes the reply to [`replied`]. If
/// the session has no call, the caller waits for the next datagram and passes it to [`received`]. Both methods return an [`Output`]. If the output is
/// a packet, the caller sends that packet.
///
/// The tree `left` fixes the steps: the session makes exactly the calls, and sends exactly the datagrams, that this tree names.
///
/// [`replied`]: Session::replied
/// [`received`]: Session::received
pub trait Session {
    /// What remains to be done in this turn and in the given number of later turns. A turn is one call of `received` and all calls of `replied` before
    /// the next call of `received`.
    ghost left: { Self → ℕ → Doing };

    /// An upper bound on the number of calls that remain in this turn.
    ghost calls: { Self → ℕ };

    /// Returns the next call to make. Returns `None` if the turn is over and the session waits for the next datagram.
    fn call(&self) -> Option<&Call>
        ensures { (turns : ℕ) → MatchOption result (Waits (left self.now turns) turns) (λ call. Asks (left self.now turns) call.now) };

    /// Begins a turn. The previous turn must have no calls left. If `came` is true, a datagram was received and is in `scratch.packet`. If `came` is
    /// false, none was received. `moment` is in milliseconds.
    fn received(&mut self, came: bool, moment: u64, scratch: &mut Scratch) -> Output
        requires { (turns : ℕ) → Waits (left self.old turns) turns }
        ensures { (turns : ℕ) → GoesOn (heard (left self.old (suc turns)) (datagram came scratch.old.packet) moment) (left self.new turns) scratch.new.packet result };

    /// Continues with the room's reply to the call. If the reply has a packet or a list of sequence numbers, it is in `scratch`.
    fn replied(&mut self, reply: Reply, scratch: &mut Scratch) -> Output
        requires { (turns : ℕ) → IsReplyIn (left self.old turns) reply scratch.old.packet scratch.old.names }
        ensures goes_on { (turns : ℕ) → GoesOn (answered (left self.old turns) (answer_of reply scratch.old.packet scratch.old.names)) (left self.new turns) scratch.new.packet result }
        ensures fewer { calls self.new < calls self.old };
}
