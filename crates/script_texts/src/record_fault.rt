// The text of a record outside the grammar.
ghost use Rattle.std.specs.Prelude.{◌≡◌, ◌++◌, OnErr, OnOk};
ghost use Rattle.script_texts.specs.Replies.{record_fault_text};
ghost use Rattle.script_texts.specs.Texts.{GoesOn};

use crate::number_text::append_number;
use crate::undo::whole_or_nothing;
use sfu_base::{Blob, NoMemory};

fn append_record_fault(number: u64, out: &mut Blob) -> Result<(), NoMemory>
    ensures ok { OnOk result (out.new ≡ out.old ++ record_fault_text number) }
    ensures begun { GoesOn out.old out.new }
{
    out.append(b"record ")?;
    append_number(number, out)
}

/// Appends `record N`, where N is `number`. Appends no line end. On `NoMemory`, `out` is unchanged.
pub fn write_record_fault(number: u64, out: &mut Blob) -> Result<(), NoMemory>
    ensures ok { OnOk result (out.new ≡ out.old ++ record_fault_text number) }
    ensures err { OnErr result (out.new ≡ out.old) }
{
    let start = out.bytes().len();
    let written = append_record_fault(number, out);
    whole_or_nothing(written, start, out)
}
