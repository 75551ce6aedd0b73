// Reading a whole script of `together`.
ghost use Rattle.std.specs.Prelude.{◌≤◌, IfErr, IfOk};
ghost use Rattle.port_config.specs.actors.Reading.{ReadsActors, ReadsNone};
ghost use Rattle.sfu_driver.specs.Statuses.{number_of};

use super::reader::ActorsReader;
use crate::reading::read_all;
use script_texts::Actors;
use sfu_base::{Sink, Source};
use sfu_driver::Status;
use std::alloc::Global;

/// Reads a script's calls from the source's lines: those of each actor, and those of the opening and closing parts. If a line is outside the grammar,
/// writes `line N` for the first such line; N is its number. Otherwise writes nothing. On an error, returns the command's status: 3 if the source can't be
/// read, 5 if a line is outside the grammar, 6 if memory runs out.
pub fn read_actors<S: Source, K: Sink>(
    alloc: Global,
    source: &mut S,
    sink: &mut K,
) -> Result<Actors, Status>
    ensures ok { IfOk result (λ actors. ReadsActors (S.left source.old) (S.left source.new) (K.written sink.old) (K.written sink.new)
        (S.faults source.old) (S.faults source.new)
        (K.faults sink.old) (K.faults sink.new) actors) }
    ensures err { IfErr result (λ status. ReadsNone (S.left source.old) (S.left source.new) (K.written sink.old) (K.written sink.new)
        (S.faults source.old) (S.faults source.new)
        (K.faults sink.old) (K.faults sink.new) (number_of status)) }
    ensures never_falls { K.faults sink.old ≤ K.faults sink.new }
{
    match read_all(alloc, ActorsReader::new(alloc), source, sink) {
        Ok(reader) => Ok(reader.into_actors()),
        Err(status) => Err(status),
    }
}
