// The two lines of a journal's entry.
ghost use Rattle.std.specs.Prelude.{◌≡◌, ◌++◌, OnErr, OnOk};
ghost use Rattle.script_texts.specs.Entries.{entry_text};
ghost use Rattle.script_texts.specs.Lines.{HasBytes};
ghost use Rattle.script_texts.specs.Texts.{GoesOn};

use crate::Entry;
use crate::number_text::append_number;
use crate::undo::whole_or_nothing;
use crate::written_lines::append_call;
use sfu_base::{Blob, NoMemory};

fn append_entry(entry: &Entry, out: &mut Blob) -> Result<(), NoMemory>
    requires { HasBytes entry.now.call }
    ensures ok { OnOk result (out.new ≡ out.old ++ entry_text entry.now) }
    ensures begun { GoesOn out.old out.new }
{
    out.append(b"@")?;
    append_number(u64::from(entry.actor), out)?;
    out.append(b" ")?;
    append_call(&entry.call, out)?;
    out.append(b"\n")?;
    out.append(entry.reply.bytes())?;
    out.append(b"\n")
}

/// Appends the two lines of an entry, each with its line end. The first line is `@K`, a space and the call, where K is the number of the entry's actor.
/// The second line is the reply. If the call is a packet, the packet must have at least one byte. On `NoMemory`, `out` is unchanged.
pub fn write_entry(entry: &Entry, out: &mut Blob) -> Result<(), NoMemory>
    requires { HasBytes entry.now.call }
    ensures ok { OnOk result (out.new ≡ out.old ++ entry_text entry.now) }
    ensures err { OnErr result (out.new ≡ out.old) }
{
    let start = out.bytes().len();
    let written = append_entry(entry, out);
    whole_or_nothing(written, start, out)
}
