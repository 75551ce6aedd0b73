// The pointer in a recorder's handle. The pointer's type, `*mut u8`, names no other type.
ghost use Rattle.std.specs.Prelude.{◌≡◌, Option, Some, None, is_some, false, true};
ghost use Rattle.room_c.specs.declared.tape.Tape.{Tape};
ghost use Rattle.room_c.specs.Owned.{tape_coded, tape_owned};

use crate::parts::Parts;
use crate::tape::Tape;
use std::alloc::Global;
use std::marker::Model;

/// The pointer of a `Box<Tape>`, or a pointer that owns nothing. A type that contains or names a `Box` can't be passed to C. So the pointer is `*mut u8`, and
/// the ghost field `tape` says what the pointer owns. The type is linear: a value that owns a recorder can't be dropped, and must be converted back to its box.
#[repr(C)]
pub struct HeldRecorder {
    at: *mut u8,
    alloc: Global,
    pub ghost tape: { Option Tape } by { tape_coded },
}

impl Model for HeldRecorder {
    ghost also_owns = { λ h. tape_owned h.alloc h.at h.tape };
}

// The pointer may move to another thread, because the box may.
unsafe impl Send for HeldRecorder {}

impl HeldRecorder {
    /// Returns a value that owns the box with these parts.
    pub fn of_parts(parts: Parts<Tape, Global>) -> HeldRecorder
        ensures { result.tape ≡ Some parts.value }
    {
        let Parts { ptr, alloc } = parts;
        HeldRecorder {
            at: ptr as *mut u8,
            alloc,
        }
    }

    /// Returns the parts of the box that this value owns.
    pub fn into_parts(self) -> Parts<Tape, Global>
        requires { is_some self.tape ≡ true }
        ensures { Some result.value ≡ self.tape }
    {
        let HeldRecorder { at, alloc } = self;
        Parts {
            ptr: at as *mut Tape,
            alloc,
        }
    }

    /// Returns a value that owns nothing. Its pointer is null.
    pub fn nothing(alloc: Global) -> HeldRecorder
        ensures { result.tape ≡ None }
    {
        HeldRecorder {
            at: std::ptr::null_mut(),
            alloc,
        }
    }

    /// Consumes a value that owns nothing, and returns the value's allocator.
    pub fn end(self) -> Global
        requires { is_some self.tape ≡ false }
        ensures { result ≡ self.alloc }
    {
        let HeldRecorder { at: _, alloc } = self;
        alloc
    }
}
