// The session of a controller.
ghost use Rattle.std.specs.Prelude.{◌≡◌, ℕ, Option};
ghost use Rattle.session_steps.specs.Datagrams.{control_call, if_control, is_control};
ghost use Rattle.session_steps.specs.Sessions.{Doing, control_deed};

use crate::session::{Output, Session};
use sfu_base::{Call, Reply, Scratch};
use sfu_script::{read_call, write_short};

/// The reply to a datagram that isn't a control line.
const FAULT_LINE: &[u8] = b"fault line";

/// The session of a controller. A controller sends calls: each datagram is one publish, unpublish, join, leave, aim, key, plead or why line, without a
/// line end. The session makes the call and sends the text of the reply, also without a line end. The session sends the text `fault line` as the reply
/// to any other datagram.
#[derive(Debug, Drop)]
pub struct ControlSession {
    /// The call that was read from the last datagram, until the call's reply is sent.
    said: Option<Call>,
    ghost control: { if_control said ≡ said },
}

/// Returns whether a control line may contain this call.
fn is_control(call: &Call) -> bool
    ensures { result ≡ is_control call.now }
{
    match call {
        Call::Packet { .. }
        | Call::Tick { .. }
        | Call::Take { .. }
        | Call::Resend { .. }
        | Call::Missing { .. } => false,
        _ => true,
    }
}

/// Reads a control line as a call. Returns `None` if the datagram isn't a control line.
fn read_control(line: &[u8]) -> Option<Call>
    ensures { result ≡ control_call line.now }
{
    match read_call(line) {
        Ok(call) => { if is_control(&call) { Some(call) } else { None } }
        Err(_no_line) => None,
    }
}

impl ControlSession {
    ghost use Rattle.session_steps.specs.Controlling.{controlling};
    ghost use Rattle.session_steps.specs.Stepping.{Waits};

    /// Returns a controller's session that has received no datagram yet.
    pub fn new() -> ControlSession
        ensures left { (turns : ℕ) → controlling result.said turns ≡ control_deed turns }
        ensures waits { (turns : ℕ) → Waits (controlling result.said turns) turns }
    {
        ControlSession { said: None }
    }
}

impl Session for ControlSession {
    ghost use Rattle.session_steps.specs.Controlling.{controlling, controlling_calls};

    ghost left = { λ c. controlling c.said };

    ghost calls = { λ c. controlling_calls c.said };

    fn call(&self) -> Option<&Call> {
        match &self.said {
            Some(call) => Some(call),
            None => None,
        }
    }

    fn received(&mut self, came: bool, _moment: u64, scratch: &mut Scratch) -> Output {
        if !came {
            return Output::Nothing;
        }
        self.said = read_control(scratch.packet.bytes());
        if self.said.is_some() {
            return Output::Nothing;
        }
        scratch.packet.fill(FAULT_LINE);
        Output::Packet
    }

    fn replied(&mut self, reply: Reply, scratch: &mut Scratch) -> Output {
        self.said = None;
        write_short(&reply, &mut scratch.packet);
        Output::Packet
    }
}
