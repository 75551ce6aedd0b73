// The state of a recorder.
ghost use Rattle.std.specs.Prelude.{◌≡◌, ◌≤◌, ◌+◌, [], ℕ, List, IfOk, OnOk, Err, length, None, Some, option_copied};
ghost use Rattle.std.specs.Vec.{vec_capacity, vec_len};
ghost use Rattle.ivf_recorder.specs.Units.{size_in};

use crate::fault::RecordFault;
use crate::file::IvfFile;
use crate::frame::OpenFrame;
use dd_structure::Structure;
use sfu_base::{Blob, NoMemory};
use std::alloc::Global;
use strict_receiver::Receiver;

/// The parts of a recording: the strict receiver of its packets, the elements of the unfinished frame, the file so far, and the first fault.
#[derive(Drop)]
pub struct Recording {
    pub receiver: Receiver,
    pub frame: OpenFrame,
    pub file: IvfFile,
    pub fault: Option<RecordFault>,
}

impl Recording {
    ghost use Rattle.ivf_recorder.specs.Frames.{ivf_over, obus_over};
    ghost use Rattle.ivf_recorder.specs.ReadFiles.{IsFileWith};
    ghost use Rattle.ivf_recorder.specs.Recorders.{Feeds, IsFed, StandsFor};
    ghost use Rattle.ivf_recorder.specs.Files.{IsSameBut};
    ghost use Rattle.ivf_recorder.specs.Laid.{most_bytes};
    ghost use Rattle.ivf_recorder.specs.Taken.{Grown, HasTaken, IsReadable};
    ghost use Rattle.ivf_recorder.specs.declared.fault.RecordFault.{RecordFault as FaultOf};

    /// A recording before its first packet.
    pub fn new(alloc: Global, id: u8) -> Result<Recording, NoMemory>
        ensures id { IfOk result (λ recorder. recorder.receiver.id ≡ id) }
        ensures stands { IfOk result (λ recorder. StandsFor recorder []) }
    {
        Ok(Recording {
            receiver: Receiver::new(alloc, id)?,
            frame: OpenFrame::new(alloc),
            file: IvfFile::new(alloc)?,
            fault: None,
        })
    }

    /// Processes the next packet. All memory is allocated before the receiver processes the packet, because the receiver can't undo a packet that it has
    /// processed.
    pub fn feed(&mut self, packet: &[u8]) -> Result<(), RecordFault>
        requires { length packet.now ≤ 2048 }
        ensures id { self.new.receiver.id ≡ self.old.receiver.id }
        ensures again { (fault : FaultOf) → self.old.fault ≡ Some fault → result ≡ Err fault }
        ensures unchanged { (fault : FaultOf) → self.old.fault ≡ Some fault → self.new ≡ self.old }
        ensures feeds { (history : List (List ℕ)) → StandsFor self.old history
            → Feeds self.old.fault self.old.receiver.id self.new history packet.now result }
    {
        if let Some(fault) = self.fault {
            return Err(fault);
        }
        let mark = self.frame.mark();
        if self.make_ready(packet).is_err() {
            self.frame.back_to(mark);
            return Err(RecordFault::NoMemory);
        }
        match self.receiver.feed(packet) {
            Ok(()) => self.end_frame(),
            Err(complaint) => Err(self.fail(RecordFault::Complaint(complaint))),
        }
    }

    // Appends the packet's elements to the frame, and reserves memory for the frame in the file. After `NoMemory` some of the elements may
    // have been appended.
    fn make_ready(&mut self, packet: &[u8]) -> Result<(), NoMemory>
        ensures taken { OnOk result (IsReadable packet.now → HasTaken self.old.frame self.new.frame packet.now) }
        ensures grown { Grown self.old.frame self.new.frame }
        ensures capacity { OnOk result (vec_len self.new.file.bytes + (14 + most_bytes self.new.frame) ≤ vec_capacity self.new.file.bytes) }
        ensures file { IsSameBut self.old.file self.new.file }
        ensures receiver { self.new.receiver ≡ self.old.receiver }
        ensures fault { self.new.fault ≡ self.old.fault }
    {
        self.frame.take(packet)?;
        self.file.reserve(self.frame.most_bytes())
    }

    // Stores the fault, which every later call returns.
    fn fail(&mut self, fault: RecordFault) -> RecordFault
        ensures result { result ≡ fault }
        ensures fault { self.new.fault ≡ Some fault }
        ensures rest { self.new ≡ record self.old { fault = self.new.fault } }
    {
        self.fault = Some(fault);
        fault
    }

    // Finishes an accepted packet: if the packet ended a frame, appends the frame to the file.
    fn end_frame(&mut self) -> Result<(), RecordFault>
        requires capacity { vec_len self.old.file.bytes + (14 + most_bytes self.old.frame) ≤ vec_capacity self.old.file.bytes }
        ensures ends { (history : List (List ℕ)) (packet : List ℕ) → IsFed self.old history packet
            → Feeds None self.old.receiver.id self.new history packet result }
        ensures receiver { self.new.receiver ≡ self.old.receiver }
    {
        if !self.receiver.has_ended_a_frame() {
            return Ok(());
        }
        let first = !self.file.begun;
        if !self.file.add(&self.frame) {
            return Err(self.fail(RecordFault::Obu));
        }
        self.frame.clear();
        if first {
            let (width, height) = size(self.receiver.structure());
            self.file.set_size(width, height);
        }
        Ok(())
    }

    /// Returns the file. After each frame, the file is a complete IVF file. Allocates no memory.
    pub fn finish(self) -> Blob
        ensures file { (history : List (List ℕ)) → StandsFor self history → result ≡ ivf_over self.receiver.id history }
        ensures reads { (history : List (List ℕ)) → StandsFor self history → IsFileWith result (obus_over self.receiver.id history) }
    {
        Blob::of(self.file.bytes)
    }
}

// Width and height in pixels of the highest spatial id, or 0 and 0 if the structure has no resolutions.
fn size(structure: Option<&Structure>) -> (u32, u32)
    ensures { size_in (option_copied structure.entry) ≡ record { width = result.0; height = result.1 } }
{
    let Some(structure) = structure else {
        return (0, 0);
    };
    let resolutions = structure.resolutions();
    let count = resolutions.len();
    if count == 0 {
        return (0, 0);
    }
    resolutions[count - 1]
}
