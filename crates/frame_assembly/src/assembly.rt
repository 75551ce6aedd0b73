// Assembles packets into complete frames.
ghost use Rattle.std.specs.Prelude.{◌≡◌, ◌<◌, ◌≤◌, ◌↔◌, ◌∷◌, [], IfOk, List, None, Some, length, map, slice_get, ℕ};
ghost use Rattle.forwarding_model.specs.frames.Cuts.{EndsIn, IsWholeCut, Mark as CutMark, Part, outcome, run_of};
ghost use Rattle.frame_assembly.specs.Assembled.{EndsNothing, EndsUnfinished, EndsWhole, IsAfter, answer, marked};

use crate::frame::Frame;
use crate::mark::{Mark, Outcome};
use crate::packets::empty_slot;
use packet_slot::PacketSlot;
use sfu_base::NoMemory;
use std::alloc::Global;
use std::marker::Model;

/// Assembles the packets of a layered track into frames (RTP Payload Format For AV1, section 4.4 and Appendix A). Contracts see the frame under
/// assembly, if there is one. If the last call completed a frame, they also see the packets of that frame.
#[derive(Drop)]
pub struct Assembly {
    frame: Frame,
    // `push` copies its packet into this slot first
    spare: Box<PacketSlot>,
}

impl Model for Assembly {
    ghost use Rattle.frame_assembly.specs.Assembled.{Seen};

    ghost Value = { Seen };

    ghost view = { λ a. a.frame };
}

impl Assembly {
    /// An assembly without packets. Allocates memory for 512 packets and a spare slot, or returns `NoMemory`. No later call allocates memory.
    pub fn new(alloc: Global) -> Result<Assembly, NoMemory>
        ensures value { IfOk result (λ assembly. assembly ≡ record { unfinished = None; frame = [] }) }
        ensures stands { IfOk result (λ assembly. IsAfter assembly []) }
    {
        Ok(Assembly {
            frame: Frame::new(alloc)?,
            spare: empty_slot(alloc)?,
        })
    }

    /// Processes the next packet, of at most 1,500 bytes, and copies its bytes. Returns
    /// - `Whole` if the packet completes a frame. A frame has at most 512 parts (own rule). All parts have the same frame number, and only padding may
    ///   lie between them. The first part alone has `start` set, and the last part alone has `end` set. The Z of the first part and the Y of the last
    ///   part are 0. Each later part's Z equals the Y of the part before it;
    /// - `Partial` if the packet is part of an unfinished frame. The parts so far obey these rules, except that none has `end` set yet and that the
    ///   newest part's Y may be 1;
    /// - `Pad` if the packet is padding;
    /// - `Torn` in all other cases: the frame under assembly, if there is one, is dropped (own rule).
    pub fn push(&mut self, mark: &Mark, packet: &[u8]) -> Outcome
        requires { length packet.now ≤ 1500 }
        ensures stands { (past : List (CutMark (List ℕ))) → IsAfter self.old past → IsAfter self.new (marked mark.now packet.now ∷ past) }
        ensures outcome { (past : List (CutMark (List ℕ))) → IsAfter self.old past
            → result ≡ answer (outcome (run_of past) (marked mark.now packet.now)) }
        ensures whole { (past : List (CutMark (List ℕ))) → IsAfter self.old past
            → (result ≡ Outcome.Whole) ↔ EndsWhole (marked mark.now packet.now ∷ past) }
        ensures packets { (past : List (CutMark (List ℕ))) (parts : List (Part (List ℕ))) → IsAfter self.old past → IsWholeCut parts
            → EndsIn (marked mark.now packet.now ∷ past) parts → self.new.frame ≡ map (λ p. p.brings) parts }
        ensures partial { (past : List (CutMark (List ℕ))) → IsAfter self.old past
            → (result ≡ Outcome.Partial) ↔ EndsUnfinished (marked mark.now packet.now ∷ past) }
        ensures pad { (result ≡ Outcome.Pad) ↔ (mark.now ≡ Mark.Pad) }
        ensures torn { (past : List (CutMark (List ℕ))) → IsAfter self.old past
            → (result ≡ Outcome.Torn) ↔ EndsNothing (marked mark.now packet.now) past }
        ensures frame { (result ≡ Outcome.Whole → ⊥) → self.new.frame ≡ [] }
    {
        self.spare.fill(packet);
        self.frame.take_mark(mark, &mut self.spare)
    }

    /// Processes the next packet like [`Assembly::push`], but takes it from a slot. If the packet becomes one of the first 32 parts of the frame under
    /// assembly, the slot is swapped with one of the assembly's slots, and no byte is copied. After the call, the bytes in `slot` belong to no frame.
    pub fn push_slot(&mut self, mark: &Mark, slot: &mut Box<PacketSlot>) -> Outcome
        ensures stands { (past : List (CutMark (List ℕ))) → IsAfter self.old past → IsAfter self.new (marked mark.now slot.old.value ∷ past) }
        ensures outcome { (past : List (CutMark (List ℕ))) → IsAfter self.old past
            → result ≡ answer (outcome (run_of past) (marked mark.now slot.old.value)) }
        ensures whole { (past : List (CutMark (List ℕ))) → IsAfter self.old past
            → (result ≡ Outcome.Whole) ↔ EndsWhole (marked mark.now slot.old.value ∷ past) }
        ensures packets { (past : List (CutMark (List ℕ))) (parts : List (Part (List ℕ))) → IsAfter self.old past → IsWholeCut parts
            → EndsIn (marked mark.now slot.old.value ∷ past) parts → self.new.frame ≡ map (λ p. p.brings) parts }
        ensures partial { (past : List (CutMark (List ℕ))) → IsAfter self.old past
            → (result ≡ Outcome.Partial) ↔ EndsUnfinished (marked mark.now slot.old.value ∷ past) }
        ensures pad { (result ≡ Outcome.Pad) ↔ (mark.now ≡ Mark.Pad) }
        ensures torn { (past : List (CutMark (List ℕ))) → IsAfter self.old past
            → (result ≡ Outcome.Torn) ↔ EndsNothing (marked mark.now slot.old.value) past }
        ensures frame { (result ≡ Outcome.Whole → ⊥) → self.new.frame ≡ [] }
    {
        self.frame.take_mark(mark, slot)
    }

    /// The number of packets of the frame that the last call completed, at most 512. The number is 0 if that call completed no frame.
    pub fn count(&self) -> u16
        ensures count { result ≡ length self.now.frame }
        ensures few { length self.now.frame ≤ 512 }
    {
        self.frame.count()
    }

    /// The bytes of the packet at `place` in the frame that the last call completed. Places count from 0, and `place` must be below `count`.
    pub fn packet(&self, place: u16) -> &[u8]
        requires { place < length self.now.frame }
        ensures { slice_get self.now.frame place ≡ Some result.now }
    {
        self.frame.packet(place)
    }
}
