// A recorder's handle.
ghost use Rattle.std.specs.Prelude.{◌≡◌, None, Some, is_some};
ghost use Rattle.std.specs.Option.{option_map};

use crate::held_recorder::HeldRecorder;
use crate::parts::Parts;
use crate::tape::Tape;
use std::alloc::Global;
use std::mem::replace;

/// A handle that has one recorder or no recorder. The handle has 16 bytes, which C stores. At first, all of these bytes are 0. C may pass the handle from
/// thread to thread.
#[repr(C)]
pub struct RecorderHandle {
    made: bool,
    pub held: HeldRecorder,
    pub ghost agree: { is_some held.tape ≡ made },
}

impl RecorderHandle {
    /// Returns a handle that has no recorder.
    pub fn empty(alloc: Global) -> RecorderHandle
        ensures { result.held.tape ≡ None }
    {
        RecorderHandle {
            made: false,
            held: HeldRecorder::nothing(alloc),
        }
    }

    /// Returns a handle that has this recorder.
    pub fn of(tape: Box<Tape>) -> RecorderHandle
        ensures { result.held.tape ≡ Some tape.value }
    {
        RecorderHandle {
            made: true,
            held: HeldRecorder::of_parts(Parts::of(tape)),
        }
    }

    /// Returns the handle's recorder, or `None` if the handle has no recorder.
    pub fn into_tape(self) -> Option<Box<Tape>>
        ensures { self.held.tape ≡ option_map (λ tape. tape.value) result }
    {
        let RecorderHandle { made, held } = self;
        if made {
            Some(held.into_parts().into_box())
        } else {
            held.end();
            None
        }
    }

    /// Removes the handle's recorder, and returns this recorder. Returns `None` if the handle had no recorder. Afterwards the handle has no recorder.
    pub fn take(&mut self, alloc: Global) -> Option<Box<Tape>>
        ensures taken { self.old.held.tape ≡ option_map (λ tape. tape.value) result }
        ensures empty { self.new.held.tape ≡ None }
    {
        replace(self, RecorderHandle::empty(alloc)).into_tape()
    }

    /// Puts this recorder into the handle. If the handle already had a recorder, drops the old one.
    pub fn put(&mut self, tape: Box<Tape>)
        ensures { self.new.held.tape ≡ Some tape.value }
    {
        drop(replace(self, RecorderHandle::of(tape)).into_tape());
    }
}
