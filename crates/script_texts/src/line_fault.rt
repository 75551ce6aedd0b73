// The text of a line outside the grammar.
ghost use Rattle.std.specs.Prelude.{◌≡◌, ◌++◌, OnErr, OnOk};
ghost use Rattle.script_texts.specs.Replies.{line_fault_text};
ghost use Rattle.script_texts.specs.Texts.{GoesOn};

use crate::number_text::append_number;
use crate::undo::whole_or_nothing;
use sfu_base::{Blob, NoMemory};

fn append_line_fault(line: u64, out: &mut Blob) -> Result<(), NoMemory>
    ensures ok { OnOk result (out.new ≡ out.old ++ line_fault_text line) }
    ensures begun { GoesOn out.old out.new }
{
    out.append(b"line ")?;
    append_number(line, out)
}

/// Appends `line N`, where N is the number `line`. Appends no line end. On `NoMemory`, `out` is unchanged.
pub fn write_line_fault(line: u64, out: &mut Blob) -> Result<(), NoMemory>
    ensures ok { OnOk result (out.new ≡ out.old ++ line_fault_text line) }
    ensures err { OnErr result (out.new ≡ out.old) }
{
    let start = out.bytes().len();
    let written = append_line_fault(line, out);
    whole_or_nothing(written, start, out)
}
