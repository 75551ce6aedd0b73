// Reads calls from the units of a script: its lines or records.
ghost use Rattle.std.specs.Prelude.{◌≡◌, IfSome, MatchOption, None, Some};
ghost use Rattle.script_texts.specs.Lines.{IsLine};
ghost use Rattle.sfu_script.specs.ReadLines.{call_of};
ghost use Rattle.script_records.specs.Script.{call_in};

use crate::form::Form;
use crate::record_reader::RecordReader;
use sfu_base::Call;
use sfu_script::LineReader;

/// Reads the call of a line. Returns `None` exactly if the line isn't a call. The call stays valid until the next line is read.
#[inline(always)]
pub fn read_line<'a>(reader: &'a mut LineReader, line: &[u8]) -> Option<&'a Call>
    ensures value { MatchOption result (call_of line.now ≡ None) (λ call. call_of line.now ≡ Some call.now) }
    ensures said { IfSome result (λ call. IsLine call.now line.now) }
{
    reader.read(line).ok()
}

/// Reads calls from lines and records. A call stays valid until the next call is read.
#[derive(Drop)]
pub struct CallReader {
    pub lines: LineReader,
    pub records: RecordReader,
}

impl CallReader {
    /// Returns a reader that has read nothing.
    pub fn new() -> CallReader {
        CallReader {
            lines: LineReader::new(),
            records: RecordReader::new(),
        }
    }

    /// Reads the call of a unit. The unit is a line or the body of a record, as `form` says. Returns `None` exactly if the unit isn't a call.
    #[inline(always)]
    pub fn read(&mut self, form: Form, unit: &[u8]) -> Option<&Call>
        ensures { MatchOption result (call_in form unit.now ≡ None) (λ call. call_in form unit.now ≡ Some call.now) }
    {
        match form {
            Form::Lines => read_line(&mut self.lines, unit),
            Form::Records => self.records.read(unit).ok(),
        }
    }
}
