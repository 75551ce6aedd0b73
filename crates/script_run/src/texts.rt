// The line that says which line or record of a script is outside the grammar.
ghost use Rattle.std.specs.Prelude.{◌≡◌, ◌++◌, OnOk, OnErr};
ghost use Rattle.script_records.specs.Script.{fault_in};

use script_records::Form;
use script_texts::{add_fault, add_record_fault};
use sfu_base::{Blob, NoMemory};

/// Appends a line of text to `ready`, the output so far. The text is `line N` or `record N`, where N is `number`. It says that line or record N of
/// the script is outside the grammar. After `NoMemory` the output is unchanged.
#[cold]
#[inline(never)]
pub fn add_unit_fault(form: Form, number: u64, ready: &mut Blob) -> Result<(), NoMemory>
    ensures ok { OnOk result (ready.new ≡ ready.old ++ fault_in form number) }
    ensures err { OnErr result (ready.new ≡ ready.old) }
{
    match form {
        Form::Lines => add_fault(number, ready),
        Form::Records => add_record_fault(number, ready),
    }
}
