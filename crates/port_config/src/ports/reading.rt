// Reading a whole configuration of `serve`.
ghost use Rattle.std.specs.Prelude.{◌≡◌, ◌≤◌, IfErr, IfOk, OnOk};
ghost use Rattle.port_config.specs.ports.Reading.{ReadsNoSetup, ReadsSetup};
ghost use Rattle.sfu_driver.specs.Statuses.{number_of};

use super::reader::{ServeReader, Served};
use crate::reading::read_all;
use sfu_base::{Sink, Source};
use sfu_driver::Status;
use std::alloc::Global;

/// Reads the calls and the ports from the source's lines. If a line is outside the grammar, writes `line N` for the first such line; N is its number.
/// Otherwise writes nothing. On an error, returns the command's status: 3 if the source can't be read, 5 if a line is outside the grammar, 6 if memory runs
/// out.
pub fn read_served<S: Source, K: Sink>(
    alloc: Global,
    source: &mut S,
    sink: &mut K,
) -> Result<Served, Status>
    ensures ok { IfOk result (λ served. ReadsSetup (S.left source.old) (S.left source.new) (K.written sink.old) (K.written sink.new) served) }
    ensures kept { OnOk result ((S.faults source.new ≡ S.faults source.old) × (K.faults sink.new ≡ K.faults sink.old)) }
    ensures err { IfErr result (λ status. ReadsNoSetup (S.left source.old) (S.left source.new) (K.written sink.old) (K.written sink.new)
        (S.faults source.old) (S.faults source.new)
        (K.faults sink.old) (K.faults sink.new) (number_of status)) }
    ensures never_falls { K.faults sink.old ≤ K.faults sink.new }
{
    match read_all(alloc, ServeReader::new(alloc), source, sink) {
        Ok(reader) => Ok(reader.into_served()),
        Err(status) => Err(status),
    }
}
