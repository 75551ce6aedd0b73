// The command `together`.
ghost use Rattle.sfu_together.specs.Together.{Plays};
ghost use Rattle.sfu_driver.specs.Statuses.{number_of};
ghost use Rattle.sfu_driver.specs.Exchange.{exchange_of};

use crate::gate::OpenGate;
use crate::running::run_together;
use port_config::{read_actors, text_of};
use sfu_base::{Sink, Source};
use sfu_driver::{Status, write_all};
use std::alloc::Global;
use std::sync::Wait;
use std::thread::Threads;

/// Reads a script of actors to its end, makes its calls, writes the journal, and returns the status. The actors make their calls at the same time.
/// The journal is written only after the last call was made.
pub fn play_script<W: Threads + Wait + Sync, S: Source, K: Sink>(
    rt: &W,
    alloc: Global,
    source: &mut S,
    sink: &mut K,
) -> Status
    ensures { Plays (exchange_of S.left S.faults K.written K.faults source.old source.new sink.old sink.new) (number_of result) }
{
    let script = match read_actors(alloc, source, sink) {
        Ok(script) => script,
        Err(status) => return status,
    };
    let Ok(journal) = run_together(rt, alloc, &script, &OpenGate) else {
        return Status::NoMemory;
    };
    let Ok(text) = text_of(alloc, &journal) else {
        return Status::NoMemory;
    };
    match write_all(sink, text.bytes()) {
        Ok(()) => Status::Done,
        Err(_) => Status::SinkFault,
    }
}
