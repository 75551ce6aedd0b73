// Recorders of the calls on a room.
ghost use Rattle.std.specs.Prelude.{◌≡◌, ℕ, Bool, false, IsTrue, IsErr, List, Option, None, OnOk, OnErr};
ghost use Rattle.room_core.specs.Noted.{Noted, Notes};

use sfu_base::{Call, NoMemory};

/// Records the calls on a room, each with the number of the seat that made the call. Some recorders store these notes, and others store nothing. Own
/// rule.
pub trait Recorder: Drop {
    /// Whether [`Recorder::note`] can run out of memory.
    ghost may_refuse: { Self → Bool };

    /// The seats and calls noted so far, the oldest first. `None` if the recorder doesn't make them visible to contracts.
    ghost noted: { Self → Option (List Noted) };

    /// Appends a call and its seat to the notes. If memory runs out, returns `NoMemory` and leaves the earlier notes unchanged.
    fn note(&mut self, seat: u32, call: &Call) -> Result<(), NoMemory>
        ensures ok { OnOk result (Notes (noted self.old) (noted self.new) seat call.now) }
        ensures err { OnErr result (noted self.new ≡ noted self.old) }
        ensures refused { IsErr result → IsTrue (may_refuse self.old) }
        ensures same { may_refuse self.new ≡ may_refuse self.old };
}

/// A recorder that stores nothing. Its `note` never returns an error.
#[derive(Drop)]
pub struct KeepNone;

impl KeepNone {
    /// Creates a recorder that stores nothing.
    pub fn new() -> KeepNone
        ensures may_refuse { ⟦<KeepNone as Recorder>⟧.may_refuse result ≡ false }
        ensures noted { ⟦<KeepNone as Recorder>⟧.noted result ≡ None }
    {
        KeepNone
    }
}

impl Recorder for KeepNone {
    ghost may_refuse = { λ _. false };

    ghost noted = { λ _. None };

    fn note(&mut self, _seat: u32, _call: &Call) -> Result<(), NoMemory> {
        Ok(())
    }
}
