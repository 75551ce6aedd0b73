// The heap value behind a session's handle.
use crate::code::Code;
use crate::plain_reply::PlainReply;
use room_sessions::EitherSession;
use session_steps::{Output, Session};
use sfu_base::Scratch;

/// A session with the buffers for its datagrams.
#[derive(Drop)]
pub struct Attended {
    pub session: EitherSession,
    pub scratch: Scratch,
}

impl Attended {
    ghost use Rattle.std.specs.Prelude.{◌≡◌, ◌≤◌, length};
    ghost use Rattle.sfu_base.specs.Links.{datagram};
    ghost use Rattle.room_c.specs.Attending.{HearsAs};

    /// Returns a value with this session and empty buffers.
    pub fn new(session: EitherSession) -> Attended
        ensures { result.session ≡ session }
    {
        Attended {
            session,
            scratch: Scratch::new(),
        }
    }

    /// Begins a turn of the session. If `came` is true, `bytes` is the received datagram. If `came` is false, no datagram was received. If the session still
    /// has a call to make, returns `Busy` and changes nothing.
    pub fn hear(&mut self, came: bool, moment: u64, bytes: &[u8]) -> PlainReply
        requires { length bytes.now ≤ 2048 }
        ensures { HearsAs self.old self.new (datagram came bytes.now) moment result }
    {
        if let Some(_call) = self.session.call() {
            return PlainReply::bare(Code::Busy);
        }
        self.scratch.packet.fill(bytes);
        self.session.hear(came, moment, &mut self.scratch);
        PlainReply::bare(Code::Done)
    }
}
