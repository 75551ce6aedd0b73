// The session of a publisher or of a subscriber.
ghost use Rattle.std.specs.Prelude.{◌≡◌, ℕ, suc};
ghost use Rattle.sfu_base.specs.Links.{datagram};
ghost use Rattle.session_steps.specs.Stepping.{Waits, heard};

use session_steps::{Output, PublisherSession, Session, SubscriberSession};
use sfu_base::{Call, Reply, Scratch};

/// The session of a publisher or of a subscriber, for callers that keep both kinds in one place.
#[derive(Debug, Drop)]
pub enum EitherSession {
    /// The session of a publisher.
    Publisher(PublisherSession),
    /// The session of a subscriber.
    Subscriber(SubscriberSession),
}

impl EitherSession {
    ghost use Rattle.room_sessions.specs.Either.{either_left};

    /// Begins a turn, as [`received`](Session::received) does. Returns no output, since the session sends no datagram before the turn's first call.
    pub fn hear(&mut self, came: bool, moment: u64, scratch: &mut Scratch)
        requires { (turns : ℕ) → Waits (either_left self.old turns) turns }
        ensures { (turns : ℕ) → heard (either_left self.old (suc turns)) (datagram came scratch.old.packet) moment ≡ either_left self.new turns }
    {
        let Output::Nothing = self.received(came, moment, scratch) else {
            unreachable!()
        };
    }
}

impl Session for EitherSession {
    ghost use Rattle.room_sessions.specs.Either.{either_calls, either_left};

    ghost left = { either_left };

    ghost calls = { either_calls };

    fn call(&self) -> Option<&Call> {
        match self {
            EitherSession::Publisher(session) => session.call(),
            EitherSession::Subscriber(session) => session.call(),
        }
    }

    fn received(&mut self, came: bool, moment: u64, scratch: &mut Scratch) -> Output {
        match self {
            EitherSession::Publisher(session) => session.received(came, moment, scratch),
            EitherSession::Subscriber(session) => session.received(came, moment, scratch),
        }
    }

    fn replied(&mut self, reply: Reply, scratch: &mut Scratch) -> Output {
        match self {
            EitherSession::Publisher(session) => session.replied(reply, scratch),
            EitherSession::Subscriber(session) => session.replied(reply, scratch),
        }
    }
}
