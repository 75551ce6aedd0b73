// Serving the calls of a script.
ghost use Rattle.std.specs.Prelude.{◌≡◌, ◌≤◌, ◌++◌, ◌∷◌, [], Err, List, OnErr, OnOk, length, true};
ghost use Rattle.sfu_base.specs.Answer.{answer_of, is_starved};
ghost use Rattle.script_texts.specs.Replies.{answer_text};
ghost use Rattle.sfu_driver.specs.declared.halt.Halt.TheVariants.{Starved};
ghost use Rattle.sfu_driver.specs.Drive.{Judges};
ghost use Rattle.sfu_driver.specs.Outcome.{writes};
ghost use Rattle.room_core.specs.History.{Entry};
ghost use Rattle.room_core.specs.Serves.{Stands};
ghost use Rattle.room_core.specs.declared.recorder.KeepNone.{KeepNone};
ghost use Rattle.room_core.specs.declared.room.Room.{Room};
ghost use Rattle.script_records.specs.declared.form.Form.TheVariants.{Lines, Records};
ghost use Rattle.script_run.specs.Run.{entry_of, reply_line, reply_to, served, unrecorded};
ghost use Rattle.script_records.specs.Script.{call_in};
ghost use Rattle.script_texts.specs.WholeLines.{fault_line, record_fault_line};

use crate::texts::add_unit_fault;
use room_core::{KeepNone, Room};
use script_records::{CallReader, Form};
use script_texts::{add_fault, add_record_fault, add_reply, wants_memory};
use sfu_base::{Blob, Call, NoMemory, Reply, Scratch};
use sfu_driver::{Ending, Halt, Judge};
use sfu_script::is_skipped;
use std::alloc::Global;

/// Serves the calls of a script. Seat 0 makes each call, on a room whose recorder stores nothing.
#[derive(Drop)]
pub struct CallServer {
    pub reader: CallReader,
    pub room: Room<KeepNone>,
    pub scratch: Scratch,
}

// Appends the line of a reply to `ready`, the output so far.
#[inline(always)]
fn answer(reply: &Reply, scratch: &Scratch, ready: &mut Blob) -> Result<(), Halt>
    ensures starved { is_starved reply.now ≡ true → result ≡ Err Starved }
    ensures ok { OnOk result (ready.new ≡ ready.old ++ (answer_text (answer_of reply.now scratch.now.packet scratch.now.names) ++ 10 ∷ [])) }
    ensures err { OnErr result (ready.new ≡ ready.old) }
    ensures only { OnErr result (result ≡ Err Starved) }
{
    if wants_memory(reply) {
        return Err(Halt::Starved);
    }
    add_reply(reply, scratch, ready)?;
    Ok(())
}

// Serves a call of any kind. Out of line: this function moves each reply, while `serve` writes the reply to a take without moving it.
#[inline(never)]
fn serve_any(
    room: &mut Room<KeepNone>,
    call: &Call,
    scratch: &mut Scratch,
    ready: &mut Blob,
) -> Result<(), Halt>
    ensures judges { (history : List Entry) → Stands unrecorded room.old history
        → Judges (λ (room : Room KeepNone) (later : List Entry). Stands unrecorded room later)
        (writes (reply_line history call.now) (history ++ entry_of call.now ∷ [])) room.new ready.old ready.new result }
    ensures grows { length ready.old ≤ length ready.new }
{
    match room.serve(0, call, scratch) {
        // Most of these replies are `Done`. The arm names it, so that no reply is moved.
        Reply::Done => answer(&Reply::Done, scratch, ready),
        reply => answer(&reply, scratch, ready),
    }
}

impl CallServer {
    /// Returns a server that has served nothing.
    pub fn new(alloc: Global) -> CallServer
        ensures { Stands unrecorded result.room [] }
    {
        CallServer {
            reader: CallReader::new(),
            room: Room::new(alloc, KeepNone::new()),
            scratch: Scratch::new(),
        }
    }

    // Serves the call of a line or record. Inlined, as `judge` is, into the loop over units, which so distinguishes the most frequent kinds of call.
    #[inline(always)]
    fn serve(&mut self, form: Form, number: u32, unit: &[u8], ready: &mut Blob) -> Result<(), Halt>
        ensures judges { (history : List Entry) → Stands unrecorded self.old.room history
            → Judges (λ (server : CallServer) (later : List Entry). Stands unrecorded server.room later)
            (reply_to form (call_in form unit.now) number history) self.new ready.old ready.new result }
        ensures grows { length ready.old ≤ length ready.new }
    {
        let Some(call) = self.reader.read(form, unit) else {
            add_unit_fault(form, u64::from(number), ready)?;
            return Err(Halt::Ended(Ending::Outside));
        };
        // Most calls are takes.
        if let Call::Take { subscriber } = call {
            let subscriber = *subscriber;
            return match self.room.take(0, subscriber, &mut self.scratch) {
                // The arm names this reply, so that no reply is moved.
                Reply::Packet => answer(&Reply::Packet, &self.scratch, ready),
                reply => answer(&reply, &self.scratch, ready),
            };
        }
        serve_any(&mut self.room, call, &mut self.scratch, ready)
    }
}

/// Serves the calls of a script of lines.
#[derive(Drop)]
pub struct LineServer {
    pub server: CallServer,
}

impl Judge for LineServer {
    ghost State = { List Entry };

    ghost stands = { λ lines history. Stands unrecorded lines.server.room history };

    ghost step = { served Lines };

    ghost outside = { fault_line };

    ghost closing = { λ _. [] };

    #[inline(always)]
    fn judge(&mut self, number: u32, line: &[u8], ready: &mut Blob) -> Result<(), Halt> {
        if is_skipped(line) {
            return Ok(());
        }
        self.server.serve(Form::Lines, number, line, ready)
    }

    fn refuse(&self, number: u64, ready: &mut Blob) -> Result<(), NoMemory> {
        add_fault(number, ready)
    }

    fn close(&mut self, _ready: &mut Blob) -> Result<(), NoMemory> {
        Ok(())
    }
}

/// Serves the calls of a script of records. Record 0 of the script is its header.
#[derive(Drop)]
pub struct RecordServer {
    pub server: CallServer,
}

impl Judge for RecordServer {
    ghost State = { List Entry };

    ghost stands = { λ records history. Stands unrecorded records.server.room history };

    ghost step = { served Records };

    ghost outside = { record_fault_line };

    ghost closing = { λ _. [] };

    #[inline(always)]
    fn judge(&mut self, number: u32, body: &[u8], ready: &mut Blob) -> Result<(), Halt> {
        if number == 0 {
            return Ok(());
        }
        self.server.serve(Form::Records, number, body, ready)
    }

    fn refuse(&self, number: u64, ready: &mut Blob) -> Result<(), NoMemory> {
        add_record_fault(number, ready)
    }

    fn close(&mut self, _ready: &mut Blob) -> Result<(), NoMemory> {
        Ok(())
    }
}
