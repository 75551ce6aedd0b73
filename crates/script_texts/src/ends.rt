// The line that says how a session ended.
ghost use Rattle.std.specs.Prelude.{◌≡◌, ◌++◌, OnErr, OnOk};
ghost use Rattle.script_texts.specs.Ends.{end_text};
ghost use Rattle.script_texts.specs.Texts.{GoesOn};

use crate::pieces::Piece::{Number, Text};
use crate::pieces::append_pieces;
use crate::undo::whole_or_nothing;
use sfu_base::{Blob, NoMemory};

fn append_end(session: u32, fault: Option<u64>, out: &mut Blob) -> Result<(), NoMemory>
    ensures ok { OnOk result (out.new ≡ out.old ++ end_text session fault) }
    ensures begun { GoesOn out.old out.new }
{
    let name = Text(b"session");
    let session = Number(u64::from(session));
    match fault {
        None => append_pieces(&[name, session, Text(b"all")], out),
        Some(turn) => append_pieces(&[name, session, Text(b"fault"), Number(turn)], out),
    }
}

/// Appends `session K all`, where K is the session's number. If the session's link failed in the turn TURN, appends `session K fault TURN` instead.
/// Appends no line end. On `NoMemory`, `out` is unchanged.
pub fn write_end(session: u32, fault: Option<u64>, out: &mut Blob) -> Result<(), NoMemory>
    ensures ok { OnOk result (out.new ≡ out.old ++ end_text session fault) }
    ensures err { OnErr result (out.new ≡ out.old) }
{
    let start = out.bytes().len();
    let written = append_end(session, fault, out);
    whole_or_nothing(written, start, out)
}
