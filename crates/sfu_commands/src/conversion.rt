// The command `convert`.
ghost use Rattle.std.specs.Prelude.{[]};
ghost use Rattle.sfu_commands.specs.Convert.{Converts, IsConvertStatus, converted};
ghost use Rattle.sfu_driver.specs.Statuses.{number_of};
ghost use Rattle.sfu_driver.specs.Exchange.{exchange_of};

use script_records::{HEADER, read_line, write_record};
use sfu_base::{Blob, NoMemory, Sink, Source};
use sfu_driver::{Ending, Halt, Judge, Lines, Status, Units, answer, write_all};
use sfu_script::{LineReader, is_skipped};
use std::alloc::Global;

/// Writes the call of each line as a record.
#[derive(Drop)]
pub struct Converter {
    pub reader: LineReader,
}

impl Judge for Converter {
    ghost State = { Unit {0} };

    ghost stands = { λ _ _. Unit {0} };

    ghost step = { converted };

    ghost outside = { λ _. [] };

    ghost closing = { λ _. [] };

    fn judge(&mut self, _number: u32, line: &[u8], ready: &mut Blob) -> Result<(), Halt> {
        if is_skipped(line) {
            return Ok(());
        }
        let Some(call) = read_line(&mut self.reader, line) else {
            return Err(Halt::Ended(Ending::Outside));
        };
        write_record(call, ready)?;
        Ok(())
    }

    fn refuse(&self, _number: u64, _ready: &mut Blob) -> Result<(), NoMemory> {
        Ok(())
    }

    fn close(&mut self, _ready: &mut Blob) -> Result<(), NoMemory> {
        Ok(())
    }
}

/// Converts a script of lines to a script of records: writes the header, and a record for each call. Returns the command's status.
pub fn convert<S: Source, K: Sink>(alloc: Global, source: &mut S, sink: &mut K) -> Status
    ensures converts { Converts (exchange_of S.left S.faults K.written K.faults source.old source.new sink.old sink.new) (number_of result) }
    ensures only { IsConvertStatus (number_of result) }
{
    match write_all(sink, HEADER) {
        Ok(()) => {
            let judge = Converter {
                reader: LineReader::new(),
            };
            let mut units = Units::new(Lines, judge, 1);
            answer(alloc, &mut units, source, sink)
        }
        Err(_) => Status::SinkFault,
    }
}
