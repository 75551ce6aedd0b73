// Reading a script of `together` line by line.
ghost use Rattle.std.specs.Prelude.{◌≡◌, ◌<◌, ◌≤◌, ◌∷◌, ◌++◌, [], List, MatchResult, IfOk, OnOk, Some, None};
ghost use Rattle.script_texts.specs.WholeLines.{fault_line};
ghost use Rattle.sfu_base.specs.declared.call.Call.{Call};
ghost use Rattle.port_config.specs.actors.Script.{AreActors, Said, may_follow, said_by};
ghost use Rattle.port_config.specs.actors.Reader.{Holds, judged_line};

use super::lists::put_last;
use script_texts::{Actors, Calls, add_fault};
use sfu_base::{Blob, Call, NoMemory};
use sfu_driver::{Ending, Halt, Judge};
use sfu_script::{NoLine, is_skipped, read_actor_line, read_call};
use std::alloc::Global;

/// A script has at most this many lines.
const MOST_LINES: u32 = 100_000;

/// Collects the calls of a script's lines: one list for each actor, one for the opening part, and one for the closing part.
#[derive(Drop)]
pub struct ActorsReader {
    opening: Vec<Call>,
    acts: [Vec<Call>; 8],
    closing: Vec<Call>,
    has_acted: bool,
}

impl ActorsReader {
    /// Returns a reader that hasn't read any line yet.
    pub fn new(alloc: Global) -> ActorsReader
        ensures { Holds result [] }
    {
        ActorsReader {
            opening: Vec::new(alloc),
            acts: [
                Vec::new(alloc),
                Vec::new(alloc),
                Vec::new(alloc),
                Vec::new(alloc),
                Vec::new(alloc),
                Vec::new(alloc),
                Vec::new(alloc),
                Vec::new(alloc),
            ],
            closing: Vec::new(alloc),
            has_acted: false,
        }
    }

    // Returns whether a line of this actor may follow the lines read so far. Actor 0 means a plain line.
    fn may_follow(&self, actor: u8) -> bool
        ensures { (past : List Said) → Holds self.now past → (call : Call) → result ≡ may_follow past (record { actor = actor; call = call }) }
    {
        actor == 0 || self.closing.is_empty()
    }

    // Appends the call of a plain line to the opening or the closing part.
    fn add_plain(&mut self, call: Call) -> Result<(), NoMemory>
        ensures { OnOk result ((past : List Said) → Holds self.old past → Holds self.new (past ++ record { actor = 0; call = call } ∷ [])) }
    {
        if self.has_acted {
            put_last(&mut self.closing, call)
        } else {
            put_last(&mut self.opening, call)
        }
    }

    // Appends a call to the list of its actor.
    fn add_act(&mut self, actor: u8, call: Call) -> Result<(), NoMemory>
        requires some { 0 < actor }
        requires within { actor ≤ 8 }
        ensures { OnOk result ((past : List Said) → Holds self.old past → Holds self.new (past ++ record { actor = actor; call = call } ∷ [])) }
    {
        self.has_acted = true;
        put_last(&mut self.acts[usize::from(actor) - 1], call)
    }

    // Appends a call to the list of its actor; for actor 0, to the opening or the closing part.
    fn add(&mut self, actor: u8, call: Call) -> Result<(), NoMemory>
        requires { actor ≤ 8 }
        ensures { OnOk result ((past : List Said) → Holds self.old past → Holds self.new (past ++ record { actor = actor; call = call } ∷ [])) }
    {
        if actor == 0 {
            self.add_plain(call)
        } else {
            self.add_act(actor, call)
        }
    }

    /// Returns the calls of each actor, and those of the opening and closing parts.
    pub fn into_actors(self) -> Actors
        ensures { (past : List Said) → Holds self past → AreActors past result }
    {
        let ActorsReader {
            opening,
            acts: [one, two, three, four, five, six, seven, eight],
            closing,
            has_acted: _,
        } = self;
        Actors {
            opening: Calls::of(opening),
            actors: [
                Calls::of(one),
                Calls::of(two),
                Calls::of(three),
                Calls::of(four),
                Calls::of(five),
                Calls::of(six),
                Calls::of(seven),
                Calls::of(eight),
            ],
            closing: Calls::of(closing),
        }
    }
}

impl Judge for ActorsReader {
    ghost State = { List Said };

    ghost stands = { Holds };

    ghost step = { judged_line };

    ghost outside = { fault_line };

    ghost closing = { λ _. [] };

    fn judge(&mut self, number: u32, line: &[u8], ready: &mut Blob) -> Result<(), Halt> {
        if number <= MOST_LINES {
            if is_skipped(line) {
                return Ok(());
            }
            if let Ok((actor, call)) = read_said(line) {
                if self.may_follow(actor) {
                    self.add(actor, call)?;
                    return Ok(());
                }
            }
        }
        add_fault(u64::from(number), ready)?;
        Err(Halt::Ended(Ending::Outside))
    }

    fn refuse(&self, number: u64, ready: &mut Blob) -> Result<(), NoMemory> {
        add_fault(number, ready)
    }

    fn close(&mut self, _ready: &mut Blob) -> Result<(), NoMemory> {
        Ok(())
    }
}

// Reads a line as an actor and its call; the actor is 0 if the line names none.
fn read_said(line: &[u8]) -> Result<(u8, Call), NoLine>
    ensures value { MatchResult result (λ by. said_by line.now ≡ Some (record { actor = by.0; call = by.1 })) (λ _. said_by line.now ≡ None) }
    ensures within { IfOk result (λ by. by.0 ≤ 8) }
{
    match read_call(line) {
        Ok(call) => Ok((0, call)),
        Err(_) => read_actor_line(line),
    }
}
