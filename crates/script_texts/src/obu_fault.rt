// The text for a packet that completes a frame in which an element isn't an OBU.
ghost use Rattle.std.specs.Prelude.{◌≡◌, ◌++◌, OnErr, OnOk};
ghost use Rattle.script_texts.specs.Replies.{obu_text};
ghost use Rattle.script_texts.specs.Texts.{GoesOn};

use crate::pieces::Piece::{Number, Text};
use crate::pieces::append_pieces;
use crate::undo::whole_or_nothing;
use sfu_base::{Blob, NoMemory};

fn append_obu(line: u32, out: &mut Blob) -> Result<(), NoMemory>
    ensures ok { OnOk result (out.new ≡ out.old ++ obu_text line) }
    ensures begun { GoesOn out.old out.new }
{
    append_pieces(&[Text(b"line"), Number(u64::from(line)), Text(b"obu")], out)
}

/// Appends `line N obu`, where N is the number `line`. Appends no line end. On `NoMemory`, `out` is unchanged.
pub fn write_obu(line: u32, out: &mut Blob) -> Result<(), NoMemory>
    ensures ok { OnOk result (out.new ≡ out.old ++ obu_text line) }
    ensures err { OnErr result (out.new ≡ out.old) }
{
    let start = out.bytes().len();
    let written = append_obu(line, out);
    whole_or_nothing(written, start, out)
}
