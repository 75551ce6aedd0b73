// The command `cascade`.
ghost use Rattle.std.specs.Prelude.{◌≤◌};
ghost use Rattle.cascade.specs.Command.{ShowsCascade};
ghost use Rattle.sfu_driver.specs.Statuses.{number_of};

use crate::playing::play;
use sfu_base::Sink;
use sfu_driver::{Status, write_all};
use std::alloc::Global;

/// The command `cascade`: sends a generated stream through two rooms to the three subscribers of the second room. A strict receiver checks each
/// subscriber's packets, and its findings are written to `sink`. The stream has `frames` frames; about `loss` percent of its packets are lost;
/// `start` seeds the random generator. Returns status 0 if all output was written, 4 if the sink failed, or 6 if memory ran out.
pub fn cascade<K: Sink>(alloc: Global, frames: u32, start: u64, loss: u8, sink: &mut K) -> Status
    requires some_frames { 1 ≤ frames }
    requires few_frames { frames ≤ 1000000 }
    requires loss { loss ≤ 50 }
    ensures { ShowsCascade (record { frames = frames; start = start; loss = loss }) (K.written sink.old) (K.written sink.new) (K.faults sink.old)
        (K.faults sink.new) (number_of result) }
{
    let Ok(text) = play(alloc, frames, start, loss) else {
        return Status::NoMemory;
    };
    match write_all(sink, text.as_bytes()) {
        Ok(()) => Status::Done,
        Err(_) => Status::SinkFault,
    }
}
