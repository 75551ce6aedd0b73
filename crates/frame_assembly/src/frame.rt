// The frame under assembly, and how a mark and its packet change it.
ghost use Rattle.std.specs.Prelude.{◌≡◌, ◌<◌, ◌≤◌, [], IfOk, None, Some, is_some, length, slice_get, true};
ghost use Rattle.frame_assembly.specs.Assembled.{marked};
ghost use Rattle.frame_assembly.specs.Steps.{answered, begun, continued, ended, made_of, nothing, pushed};

use crate::mark::{Mark, Outcome};
use crate::packets::{MOST_PACKETS, Packets};
use obu_element::Joiner;
use packet_slot::PacketSlot;
use sfu_base::NoMemory;
use std::alloc::Global;
use std::marker::Model;

/// The state of the frame whose packets are stored.
#[derive(Clone, Copy, Debug)]
enum Progress {
    /// There is no frame.
    Nothing,
    /// The frame is unfinished.
    Unfinished,
    /// The last call completed the frame.
    Whole,
}

/// Stores the frame under assembly, if there is one. If the last call completed a frame, also stores the packets of that frame.
#[derive(Drop)]
pub struct Frame {
    progress: Progress,
    number: u16,
    joiner: Joiner,
    packets: Packets,
}

impl Model for Frame {
    ghost use Rattle.frame_assembly.specs.Assembled.{Seen};
    ghost use Rattle.frame_assembly.specs.Kept.{seen};

    ghost Value = { Seen };

    ghost view = { seen };
}

impl Frame {
    /// Returns a value that stores no frame, or `NoMemory` if memory runs out. No later call allocates memory.
    pub fn new(alloc: Global) -> Result<Frame, NoMemory>
        ensures { IfOk result (λ frame. frame ≡ nothing) }
    {
        Ok(Frame {
            progress: Progress::Nothing,
            number: 0,
            joiner: Joiner::new(),
            packets: Packets::new(alloc)?,
        })
    }

    // The clauses here are about one call, and those of `Assembly` about whole lists of marks.
    /// Applies the next mark to the frame under assembly. `slot` has the mark's packet. If the packet is added to the frame, the slot may be swapped
    /// with one of the frame's slots.
    pub fn take_mark(&mut self, mark: &Mark, slot: &mut Box<PacketSlot>) -> Outcome
        ensures seen { self.new ≡ pushed self.old (marked mark.now slot.old.value) }
        ensures made { result ≡ made_of self.old (marked mark.now slot.old.value) }
    {
        match *mark {
            Mark::Gone | Mark::Unread => self.tear(),
            Mark::Pad => {
                self.forget_whole();
                Outcome::Pad
            }
            Mark::Part {
                start,
                end,
                number,
                continues,
                carries,
            } => {
                if start {
                    self.begin(number);
                }
                if !self.extend(number, continues, carries, slot) {
                    return self.tear();
                }
                if end {
                    return self.finish();
                }
                Outcome::Partial
            }
        }
    }

    // Drops the frame so far.
    fn tear(&mut self) -> Outcome
        ensures seen { self.new ≡ nothing }
        ensures made { result ≡ Outcome.Torn }
    {
        self.progress = Progress::Nothing;
        Outcome::Torn
    }

    // Forgets a complete frame, which is available only until the next mark.
    fn forget_whole(&mut self)
        ensures { self.new ≡ record { unfinished = self.old.unfinished; frame = [] } }
    {
        if let Progress::Whole = self.progress {
            self.progress = Progress::Nothing;
        }
    }

    // Begins a frame without packets.
    fn begin(&mut self, number: u16)
        ensures { self.new ≡ record { unfinished = Some (begun number); frame = [] } }
    {
        self.progress = Progress::Unfinished;
        self.number = number;
        self.joiner = Joiner::new();
        self.packets.clear();
    }

    // Adds a packet if it continues the unfinished frame. Returns whether it was added.
    fn extend(
        &mut self,
        number: u16,
        continues: bool,
        carries: bool,
        slot: &mut Box<PacketSlot>,
    ) -> bool
        ensures goes_on { result ≡ is_some (continued self.old.unfinished number continues carries slot.old.value) }
        ensures seen { result ≡ true → self.new ≡ record { unfinished = continued self.old.unfinished number continues carries slot.old.value; frame = [] } }
    {
        let Progress::Unfinished = self.progress else {
            return false;
        };
        if number != self.number || self.packets.len() >= MOST_PACKETS {
            return false;
        }
        if self.joiner.feed(continues, carries).is_err() {
            return false;
        }
        self.packets.push(slot);
        true
    }

    // Ends the frame so far. The frame is complete, unless an OBU element is unfinished. With an unfinished element, the frame is dropped as torn.
    fn finish(&mut self) -> Outcome
        requires { is_some self.old.unfinished ≡ true }
        ensures seen { self.new ≡ ended true self.old.unfinished }
        ensures made { result ≡ answered true self.old.unfinished }
    {
        if !self.joiner.is_closed() {
            return self.tear();
        }
        self.progress = Progress::Whole;
        Outcome::Whole
    }

    /// How many packets the complete frame has, or 0 if no frame is complete.
    pub fn count(&self) -> u16
        ensures count { result ≡ length self.now.frame }
        ensures few { length self.now.frame ≤ 512 }
    {
        match self.progress {
            Progress::Whole => self.packets.len() as u16,
            _ => 0,
        }
    }

    /// The bytes of the packet at this place in the complete frame. Places count from 0.
    pub fn packet(&self, place: u16) -> &[u8]
        requires { place < length self.now.frame }
        ensures { slice_get self.now.frame place ≡ Some result.now }
    {
        self.packets.at(place as usize)
    }
}
