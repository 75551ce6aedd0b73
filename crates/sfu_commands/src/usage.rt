// The usage line.
ghost use Rattle.std.specs.Prelude.{◌≡◌, []};
ghost use Rattle.sfu_driver.specs.Drive.{WritesEnd};
ghost use Rattle.sfu_commands.specs.Help.{ShowsUsage, usage_text};
ghost use Rattle.sfu_driver.specs.Statuses.{KeptOrCut, number_of};

use sfu_base::Sink;
use sfu_driver::{Status, write_all};

const USAGE: &[u8] =
    b"usage: run, together, trial, check, record, serve, convert, simulcast, cascade, help\n";

/// The command `help`: writes the usage line, and returns the status.
pub fn help<K: Sink>(sink: &mut K) -> Status
    ensures { ShowsUsage (K.written sink.old) (K.written sink.new) (K.faults sink.old) (K.faults sink.new) (number_of result) }
{
    match write_all(sink, USAGE) {
        Ok(()) => Status::Done,
        Err(_) => Status::SinkFault,
    }
}

/// Refuses arguments that aren't a command: writes the usage line, and returns `NoCommand` even if the sink fails.
pub fn refuse<K: Sink>(sink: &mut K) -> Status
    ensures shows { WritesEnd (K.written sink.old) (K.written sink.new) (K.faults sink.old) (K.faults sink.new) [] usage_text }
    ensures once { KeptOrCut (K.faults sink.old) (K.faults sink.new) }
    ensures status { number_of result ≡ 2 }
{
    let _ = write_all(sink, USAGE);
    Status::NoCommand
}
