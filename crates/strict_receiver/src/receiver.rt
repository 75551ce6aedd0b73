// A strict receiver.

ghost use Rattle.std.specs.Prelude.{◌≡◌, ◌++◌, ◌∷◌, ◌+◌, [], ℕ, List, IfOk, OnErr, if◌then◌else◌, is_ok, min, option_copied};
ghost use Rattle.forwarding_model.specs.declared.complaint.Complaint.{Complaint};
ghost use Rattle.forwarding_model.specs.Receiver.{Reception, complaint_of, ends_frame};
ghost use Rattle.forwarding_model.specs.Receiver.Receiver.{Receiving};
ghost use Rattle.dd_structure.specs.TemplateStructure.{TemplateStructure};
ghost use Rattle.strict_receiver.specs.Receivers.{StandsFor, complaint_in, complaint_over, greatest_count};

use crate::state::State;
use dd_structure::Structure;
use forwarding_model::Complaint;
use sfu_base::NoMemory;
use std::alloc::Global;
use std::marker::Model;

/// A strict receiver of the packets of one layered track (own rule). The receiver knows only the packets and the header extension id of their
/// dependency descriptors. Contracts see this id, the counts of packets and frames, and a receiver of `forwarding_model`. Of the received frame
/// numbers, that receiver has only those that are kept.
#[derive(Drop)]
pub struct Receiver {
    // On the heap, because receivers are moved and a state is large: it has two template structures.
    state: Box<State>,
    packets: u64,
    frames: u64,
}

impl Model for Receiver {
    ghost use Rattle.strict_receiver.specs.Receivers.{Seen};

    ghost Value = { Seen };

    ghost use Rattle.strict_receiver.specs.Kept.{IsKept, seen};

    ghost view = { seen };

    ghost invariant = { IsKept };
}

impl Receiver {
    /// A receiver before its first packet, for descriptors with this header extension id. Returns `NoMemory` if memory runs out. No later call
    /// allocates memory.
    pub fn new(alloc: Global, id: u8) -> Result<Receiver, NoMemory>
        ensures id { IfOk result (λ receiver. receiver.id ≡ id) }
        ensures stands { IfOk result (λ receiver. StandsFor receiver []) }
    {
        Ok(Receiver {
            state: Box::new(alloc, State::new(id)).map_err(|_| NoMemory)?,
            packets: 0,
            frames: 0,
        })
    }

    /// Processes the bytes of the next packet. Returns the first complaint about the packets so far, if there is one. After a complaint, each
    /// call returns it again and changes nothing.
    pub fn feed(&mut self, packet: &[u8]) -> Result<(), Complaint>
        ensures id { self.new.id ≡ self.old.id }
        ensures stands { (history : List (List ℕ)) → StandsFor self.old history → StandsFor self.new (history ++ packet.now ∷ []) }
        ensures answer { (history : List (List ℕ)) → StandsFor self.old history
            → complaint_in result ≡ complaint_over self.old.id (history ++ packet.now ∷ []) }
        ensures reported { complaint_in result ≡ complaint_of self.new.receiver }
        ensures again { (complaint : Complaint) → complaint_of self.old.receiver ≡ Some complaint → result ≡ Err complaint }
        ensures unchanged { (complaint : Complaint) → complaint_of self.old.receiver ≡ Some complaint → self.new ≡ self.old }
        ensures packets { self.new.packets ≡ (if is_ok result then min (self.old.packets + 1) greatest_count else self.old.packets) }
        ensures frames { OnErr result (self.new.frames ≡ self.old.frames) }
    {
        self.state.next(packet)?;
        self.packets = self.packets.saturating_add(1);
        if self.state.has_ended_a_frame() {
            self.frames = self.frames.saturating_add(1);
        }
        Ok(())
    }

    /// How many frames were accepted. A frame is accepted when its last packet is accepted. The count stops at 2^64 - 1.
    pub fn frames(&self) -> u64
        ensures { result ≡ self.now.frames }
    {
        self.frames
    }

    /// How many packets were accepted, including those of an unfinished frame. The count stops at 2^64 - 1.
    pub fn packets(&self) -> u64
        ensures { result ≡ self.now.packets }
    {
        self.packets
    }

    /// Whether the last packet was accepted and ended a frame.
    pub fn has_ended_a_frame(&self) -> bool
        ensures { (if result then 1 else 0) ≡ ends_frame self.now.receiver }
    {
        self.state.has_ended_a_frame()
    }

    /// Returns the template structure in force, or `None` before the first packet. After a complaint, the result is unspecified.
    pub fn structure(&self) -> Option<&Structure>
        ensures { (r : Reception TemplateStructure) → self.now.receiver ≡ Receiving r → option_copied result ≡ r.structure }
    {
        self.state.structure.as_ref()
    }
}
