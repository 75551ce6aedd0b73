// The command `trial`.
ghost use Rattle.std.specs.Prelude.{◌≡◌, ◌≤◌, IfOk};
ghost use Rattle.std.specs.String.{string_bytes};
ghost use Rattle.cascade.specs.Trial.{ShowsTrial, trial_text};
ghost use Rattle.sfu_driver.specs.Statuses.{number_of};

mod stage;

use crate::summing::summary;
use sfu_base::{NoMemory, PacketBuf, Sink};
use sfu_driver::{Status, write_all};
use stage::Stage;
use std::alloc::Global;
use stream_maker::{Event, Maker};

// Plays a trial, and returns its summary.
fn play(alloc: Global, frames: u32, start: u64, loss: u8) -> Result<String, NoMemory>
    requires some_frames { 1 ≤ frames }
    requires few_frames { frames ≤ 1000000 }
    requires loss { loss ≤ 50 }
    ensures { IfOk result (λ text. string_bytes text ≡ trial_text (record { frames = frames; start = start; loss = loss })) }
{
    let mut stage = Stage::new(alloc)?;
    let mut maker = Maker::new(frames, start, loss);
    let mut packet = PacketBuf::new();
    'events: loop {
        match maker.next_event(&mut packet) {
            Event::Packet { moment } => stage.packet(moment, &packet),
            Event::Tick { moment } => stage.tick(moment),
            Event::End => break 'events,
        }
    }
    let text = summary(
        alloc,
        maker.counts(),
        &stage.first,
        &stage.second,
        &stage.third,
    )?;
    Ok(text)
}

/// The command `trial`: sends a generated stream through a room to three subscribers. A strict receiver checks each subscriber's packets, and its
/// findings are written to `sink`. The stream has `frames` frames; about `loss` percent of its packets are lost; `start` seeds the random
/// generator. Returns status 0 if all output was written, 4 if the sink failed, or 6 if memory ran out.
pub fn trial<K: Sink>(alloc: Global, frames: u32, start: u64, loss: u8, sink: &mut K) -> Status
    requires some_frames { 1 ≤ frames }
    requires few_frames { frames ≤ 1000000 }
    requires loss { loss ≤ 50 }
    ensures { ShowsTrial (record { frames = frames; start = start; loss = loss }) (K.written sink.old) (K.written sink.new) (K.faults sink.old)
        (K.faults sink.new) (number_of result) }
{
    let Ok(text) = play(alloc, frames, start, loss) else {
        return Status::NoMemory;
    };
    match write_all(sink, text.as_bytes()) {
        Ok(()) => Status::Done,
        Err(_) => Status::SinkFault,
    }
}
