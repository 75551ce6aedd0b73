// The public recorder.
ghost use Rattle.std.specs.Prelude.{◌≡◌, ◌≤◌, [], ℕ, List, IfOk, Err, Some, length};

use crate::fault::RecordFault;
use crate::recording::Recording;
use sfu_base::{Blob, NoMemory};
use std::alloc::Global;
use std::marker::Model;

/// Records the packets of one layered AV1 track as an IVF file (own rule). The file has the OBUs of the frames that a strict receiver of these packets
/// accepts. Consecutive frames with the same RTP timestamp form a temporal unit. A frame that would bring a unit above 16,777,216 bytes, without the
/// unit's header, begins a new unit. The recorder allocates memory for the receiver, for the file, and for the elements of an unfinished frame.
#[derive(Drop)]
pub struct IvfRecorder {
    recording: Recording,
}

impl Model for IvfRecorder {
    ghost use Rattle.ivf_recorder.specs.declared.recording.Recording.{Recording};

    ghost Value = { Recording };

    ghost view = { λ recorder. recorder.recording };
}

impl IvfRecorder {
    ghost use Rattle.ivf_recorder.specs.Frames.{ivf_over, obus_over};
    ghost use Rattle.ivf_recorder.specs.ReadFiles.{IsFileWith};
    ghost use Rattle.ivf_recorder.specs.Recorders.{Feeds, StandsFor};
    ghost use Rattle.ivf_recorder.specs.declared.fault.RecordFault.{RecordFault as FaultOf};

    /// A recorder before its first packet. `id` is the header extension id of the dependency descriptors (RFC 8285). Returns `NoMemory` if memory runs out.
    pub fn new(alloc: Global, id: u8) -> Result<IvfRecorder, NoMemory>
        ensures id { IfOk result (λ recorder. recorder.receiver.id ≡ id) }
        ensures stands { IfOk result (λ recorder. StandsFor recorder []) }
    {
        Ok(IvfRecorder {
            recording: Recording::new(alloc, id)?,
        })
    }

    /// Processes the next packet, of at most 2,048 bytes. Returns `Complaint` if the strict receiver complains about the packet. Returns `Obu` if the
    /// packet ends a frame, and an element of this frame isn't an OBU. This frame isn't recorded. After `Complaint` or `Obu`, each later call returns the
    /// same fault and changes nothing. If memory runs out, returns `NoMemory` and changes nothing. `NoMemory` isn't returned after `Complaint` or `Obu`.
    pub fn feed(&mut self, packet: &[u8]) -> Result<(), RecordFault>
        requires { length packet.now ≤ 2048 }
        ensures id { self.new.receiver.id ≡ self.old.receiver.id }
        ensures again { (fault : FaultOf) → self.old.fault ≡ Some fault → result ≡ Err fault }
        ensures unchanged { (fault : FaultOf) → self.old.fault ≡ Some fault → self.new ≡ self.old }
        ensures feeds { (history : List (List ℕ)) → StandsFor self.old history
            → Feeds self.old.fault self.old.receiver.id self.new history packet.now result }
    {
        self.recording.feed(packet)
    }

    /// Returns the file of the frames so far. An unfinished frame isn't in the file. A frame with an element that isn't an OBU isn't in the file either.
    /// Allocates no memory.
    pub fn finish(self) -> Blob
        ensures file { (history : List (List ℕ)) → StandsFor self history → result ≡ ivf_over self.receiver.id history }
        ensures reads { (history : List (List ℕ)) → StandsFor self history → IsFileWith result (obus_over self.receiver.id history) }
    {
        self.recording.finish()
    }
}
