// A whole cascade.
ghost use Rattle.std.specs.Prelude.{◌≡◌, ◌≤◌, IfOk};
ghost use Rattle.std.specs.String.{string_bytes};
ghost use Rattle.cascade.specs.Summary.{cascade_text};

use crate::summing::summary;
use crate::two_rooms::TwoRooms;
use sfu_base::{NoMemory, PacketBuf};
use std::alloc::Global;
use stream_maker::{Event, Maker};

/// Sends a generated stream through two rooms to the three subscribers of the second room. The stream has `frames` frames; about `loss` percent of
/// its packets are lost; `start` seeds the random generator. Returns five lines: two about the stream, and one for each subscriber. A subscriber's
/// line says what a strict receiver finds in the packets of this subscriber. Returns `NoMemory` if memory runs out.
pub fn play(alloc: Global, frames: u32, start: u64, loss: u8) -> Result<String, NoMemory>
    requires some_frames { 1 ≤ frames }
    requires few_frames { frames ≤ 1000000 }
    requires loss { loss ≤ 50 }
    ensures { IfOk result (λ text. string_bytes text ≡ cascade_text (record { frames = frames; start = start; loss = loss })) }
{
    let mut rooms = TwoRooms::new(alloc)?;
    let mut maker = Maker::new(frames, start, loss);
    let mut packet = PacketBuf::new();
    'events: loop {
        match maker.next_event(&mut packet) {
            Event::Packet { moment } => rooms.packet(moment, &packet),
            Event::Tick { moment } => rooms.tick(moment),
            Event::End => break 'events,
        }
    }
    let text = summary(alloc, maker.counts(), &rooms.one, &rooms.two, &rooms.three)?;
    Ok(text)
}
