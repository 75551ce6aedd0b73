// The pointer in a session's handle. The pointer's type, `*mut u8`, names no other type.
ghost use Rattle.std.specs.Prelude.{◌≡◌, Option, Some, None, is_some, false, true};
ghost use Rattle.room_c.specs.declared.attended.Attended.{Attended};
ghost use Rattle.room_c.specs.Owned.{attended_coded, attended_owned};

use crate::attended::Attended;
use crate::parts::Parts;
use std::alloc::Global;
use std::marker::Model;

/// The pointer of a `Box<Attended>`, or a pointer that owns nothing. A type that contains or names a `Box` can't be passed to C. So the pointer is `*mut u8`,
/// and the ghost field `attended` says what the pointer owns. The type is linear: a value that owns a session can't be dropped, and must be converted back to
/// its box.
#[repr(C)]
pub struct HeldSession {
    at: *mut u8,
    alloc: Global,
    pub ghost attended: { Option Attended } by { attended_coded },
}

impl Model for HeldSession {
    ghost also_owns = { λ h. attended_owned h.alloc h.at h.attended };
}

// The pointer may move to another thread, because the box may.
unsafe impl Send for HeldSession {}

impl HeldSession {
    /// Returns a value that owns the box with these parts.
    pub fn of_parts(parts: Parts<Attended, Global>) -> HeldSession
        ensures { result.attended ≡ Some parts.value }
    {
        let Parts { ptr, alloc } = parts;
        HeldSession {
            at: ptr as *mut u8,
            alloc,
        }
    }

    /// Returns the parts of the box that this value owns.
    pub fn into_parts(self) -> Parts<Attended, Global>
        requires { is_some self.attended ≡ true }
        ensures { Some result.value ≡ self.attended }
    {
        let HeldSession { at, alloc } = self;
        Parts {
            ptr: at as *mut Attended,
            alloc,
        }
    }

    /// Returns a value that owns nothing. Its pointer is null.
    pub fn nothing(alloc: Global) -> HeldSession
        ensures { result.attended ≡ None }
    {
        HeldSession {
            at: std::ptr::null_mut(),
            alloc,
        }
    }

    /// Consumes a value that owns nothing, and returns the value's allocator.
    pub fn end(self) -> Global
        requires { is_some self.attended ≡ false }
        ensures { result ≡ self.alloc }
    {
        let HeldSession { at: _, alloc } = self;
        alloc
    }
}
