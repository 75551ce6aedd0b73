// Texts with line ends, appended to the output that is ready to be written.
ghost use Rattle.std.specs.Prelude.{◌≡◌, ◌++◌, ◌∷◌, [], OnOk, OnErr, take};
ghost use Rattle.sfu_base.specs.Answer.{answer_of, is_starved};
ghost use Rattle.script_texts.specs.Replies.{answer_text};
ghost use Rattle.script_texts.specs.WholeLines.{fault_line, record_fault_line};

use crate::hex_text::append_line;
use crate::{write_line_fault, write_record_fault, write_reply};
use sfu_base::{Blob, NoMemory, Refusal, Reply, Scratch};

/// Returns whether a reply says that memory ran out. A command that gets such a reply ends, and writes no line for it.
pub fn wants_memory(reply: &Reply) -> bool
    ensures { result ≡ is_starved reply.now }
{
    matches!(reply, Reply::Refused(Refusal::NoMemory))
}

/// Appends a line end to the text that begins at byte `start` of `ready`. On `NoMemory`, removes that text.
pub fn end_line(start: usize, ready: &mut Blob) -> Result<(), NoMemory>
    ensures ok { OnOk result (ready.new ≡ ready.old ++ 10 ∷ []) }
    ensures err { OnErr result (ready.new ≡ take start ready.old) }
{
    if ready.append(b"\n").is_err() {
        ready.truncate(start);
        return Err(NoMemory);
    }
    Ok(())
}

/// Appends the line of a reply to `ready`. On `NoMemory`, `ready` is unchanged. This function is inlined, because most callers know the kind of reply.
#[inline(always)]
pub fn add_reply(reply: &Reply, scratch: &Scratch, ready: &mut Blob) -> Result<(), NoMemory>
    ensures ok { OnOk result (ready.new ≡ ready.old ++ (answer_text (answer_of reply.now scratch.now.packet scratch.now.names) ++ 10 ∷ [])) }
    ensures err { OnErr result (ready.new ≡ ready.old) }
{
    match reply {
        // Most replies of a script are packets, and most of the others only say that the call was done.
        Reply::Packet => append_line(&scratch.packet, ready),
        Reply::Done => ready.append(b"ok\n"),
        _ => add_other_reply(reply, scratch, ready),
    }
}

// Does the same as `add_reply`, for a reply of any kind.
#[inline(never)]
fn add_other_reply(reply: &Reply, scratch: &Scratch, ready: &mut Blob) -> Result<(), NoMemory>
    ensures ok { OnOk result (ready.new ≡ ready.old ++ (answer_text (answer_of reply.now scratch.now.packet scratch.now.names) ++ 10 ∷ [])) }
    ensures err { OnErr result (ready.new ≡ ready.old) }
{
    let start = ready.bytes().len();
    write_reply(reply, scratch, ready)?;
    end_line(start, ready)
}

/// Appends the line `line N` to `ready`, where N is `number`. This line means that line N of the input is outside the grammar. On `NoMemory`, `ready` is
/// unchanged.
pub fn add_fault(number: u64, ready: &mut Blob) -> Result<(), NoMemory>
    ensures ok { OnOk result (ready.new ≡ ready.old ++ fault_line number) }
    ensures err { OnErr result (ready.new ≡ ready.old) }
{
    let start = ready.bytes().len();
    write_line_fault(number, ready)?;
    end_line(start, ready)
}

/// Appends the line `record N` to `ready`, where N is `number`. This line means that record N of the input is outside the grammar. On `NoMemory`, `ready`
/// is unchanged.
pub fn add_record_fault(number: u64, ready: &mut Blob) -> Result<(), NoMemory>
    ensures ok { OnOk result (ready.new ≡ ready.old ++ record_fault_line number) }
    ensures err { OnErr result (ready.new ≡ ready.old) }
{
    let start = ready.bytes().len();
    write_record_fault(number, ready)?;
    end_line(start, ready)
}
