// Reading a configuration of `serve` line by line.
ghost use Rattle.std.specs.Prelude.{◌≡◌, ◌≤◌, ◌<◌, ◌∷◌, ◌++◌, [], List, ℕ, MatchResult, OnOk, Some, None, length};
ghost use Rattle.std.specs.Option.{option_map};
ghost use Rattle.std.specs.Result.{result_ok};
ghost use Rattle.script_texts.specs.WholeLines.{fault_line};
ghost use Rattle.sfu_base.specs.declared.call.Call.{Call};
ghost use Rattle.sfu_script.specs.declared.ports.PortLine.{PortLine};
ghost use Rattle.port_config.specs.ports.Script.{Setup, and_said, makes_first, may_follow, nothing_said, said_by, serves};
ghost use Rattle.port_config.specs.ports.Reader.{Holds, IsSetup, judged_line, meaning_of};

use script_texts::{Calls, add_fault};
use sfu_base::{Blob, Call, NoMemory};
use sfu_driver::{Ending, Halt, Judge};
use sfu_script::{NoLine, PortLine, is_skipped, read_call, read_port};
use std::alloc::Global;

/// The greatest number of ports in a configuration.
const MOST_PORTS: usize = 64;

/// The meaning of a line: a call to make before any session starts, or a port.
#[derive(Drop)]
enum ServeLine {
    Call(Call),
    Port(PortLine),
}

/// The calls to make before any session starts, and the ports to serve.
#[derive(Drop)]
pub struct Served {
    pub calls: Calls,
    pub ports: Vec<PortLine>,
}

/// Collects a configuration's calls in one list and its ports in another.
#[derive(Drop)]
pub struct ServeReader {
    calls: Vec<Call>,
    ports: Vec<PortLine>,
}

impl ServeReader {
    /// Returns a reader that hasn't read any line yet.
    pub fn new(alloc: Global) -> ServeReader
        ensures { Holds result nothing_said }
    {
        ServeReader {
            calls: Vec::new(alloc),
            ports: Vec::new(alloc),
        }
    }

    // Returns whether this line may follow the lines read so far.
    fn may_follow(&self, line: &ServeLine) -> bool
        ensures { (setup : Setup) → Holds self.now setup → result ≡ may_follow setup (meaning_of line.now) }
    {
        match line {
            ServeLine::Call(_) => true,
            ServeLine::Port(_) => self.ports.len() < MOST_PORTS,
        }
    }

    // Appends the call or port of a line to its list.
    fn add(&mut self, line: ServeLine) -> Result<(), NoMemory>
        ensures { OnOk result ((setup : Setup) → Holds self.old setup → Holds self.new (and_said setup (meaning_of line))) }
    {
        match line {
            ServeLine::Call(call) => match self.calls.push(call) {
                Ok(()) => Ok(()),
                Err(_) => Err(NoMemory),
            },
            ServeLine::Port(port) => match self.ports.push(port) {
                Ok(()) => Ok(()),
                Err(_) => Err(NoMemory),
            },
        }
    }

    /// Returns the collected calls and ports.
    pub fn into_served(self) -> Served
        ensures { (setup : Setup) → Holds self setup → IsSetup setup result }
    {
        let ServeReader { calls, ports } = self;
        Served {
            calls: Calls::of(calls),
            ports,
        }
    }
}

impl Judge for ServeReader {
    ghost State = { Setup };

    ghost stands = { Holds };

    ghost step = { judged_line };

    ghost outside = { fault_line };

    ghost closing = { λ _. [] };

    fn judge(&mut self, number: u32, line: &[u8], ready: &mut Blob) -> Result<(), Halt> {
        if is_skipped(line) {
            return Ok(());
        }
        if let Ok(said) = read_said(line) {
            if self.may_follow(&said) {
                self.add(said)?;
                return Ok(());
            }
        }
        add_fault(u64::from(number), ready)?;
        Err(Halt::Ended(Ending::Outside))
    }

    fn refuse(&self, number: u64, ready: &mut Blob) -> Result<(), NoMemory> {
        add_fault(number, ready)
    }

    fn close(&mut self, _ready: &mut Blob) -> Result<(), NoMemory> {
        Ok(())
    }
}

// Returns the meaning of the line of this call in a configuration. Returns `NoLine` unless the call is a `publish` or a `join`.
fn first_call(call: Call) -> Result<ServeLine, NoLine>
    ensures { MatchResult result (λ said. makes_first call ≡ Some (meaning_of said)) (λ _. makes_first call ≡ None) }
{
    match call {
        Call::Publish { .. } | Call::Join { .. } => Ok(ServeLine::Call(call)),
        _ => Err(NoLine),
    }
}

// Reads a line as a call or a port.
fn read_said(line: &[u8]) -> Result<ServeLine, NoLine>
    ensures { MatchResult result (λ said. said_by line.now ≡ Some (meaning_of said)) (λ _. said_by line.now ≡ None) }
{
    match read_call(line) {
        Ok(call) => first_call(call),
        Err(_) => Ok(ServeLine::Port(read_port(line)?)),
    }
}
