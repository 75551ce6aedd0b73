// The pointer in a room's handle. The pointer's type, `*mut u8`, names no other type.
ghost use Rattle.std.specs.Prelude.{◌≡◌, Option, Some, None, is_some, false, true};
ghost use Rattle.room_c.specs.declared.home.Home.{Home};
ghost use Rattle.room_c.specs.Owned.{home_coded, home_owned};

use crate::home::Home;
use crate::parts::Parts;
use std::alloc::Global;
use std::marker::Model;

/// The pointer of a `Box<Home>`, or a pointer that owns nothing. A type that contains or names a `Box` can't be passed to C. So the pointer is `*mut u8`, and
/// the ghost field `home` says what the pointer owns. The type is linear: a value that owns a room can't be dropped, and must be converted back to its box.
#[repr(C)]
pub struct Held {
    at: *mut u8,
    alloc: Global,
    pub ghost home: { Option Home } by { home_coded },
}

impl Model for Held {
    ghost also_owns = { λ h. home_owned h.alloc h.at h.home };
}

// The pointer may move to another thread, because the box may.
unsafe impl Send for Held {}

impl Held {
    ghost use Rattle.std.specs.Borrow.{sem};
    ghost use Rattle.room_c.specs.Lending.{KeepsRoom};

    /// Returns a value that owns the box with these parts.
    pub fn of_parts(parts: Parts<Home, Global>) -> Held
        ensures { result.home ≡ Some parts.value }
    {
        let Parts { ptr, alloc } = parts;
        Held {
            at: ptr as *mut u8,
            alloc,
        }
    }

    /// Returns the parts of the box that this value owns.
    pub fn into_parts(self) -> Parts<Home, Global>
        requires { is_some self.home ≡ true }
        ensures { Some result.value ≡ self.home }
    {
        let Held { at, alloc } = self;
        Parts {
            ptr: at as *mut Home,
            alloc,
        }
    }

    /// Returns a reference to the room in the box that this value owns. Reads the pointer, but doesn't read the room.
    pub fn home(&mut self) -> &Home
        requires { is_some self.old.home ≡ true }
        ensures* keeps { sem 𝓛 (KeepsRoom self.entry) }
        ensures value { Some result.now ≡ self.old.home }
    {
        unsafe { &*(self.at as *const Home) }
    }

    /// Returns a value that owns nothing. Its pointer is null.
    pub fn nothing(alloc: Global) -> Held
        ensures { result.home ≡ None }
    {
        Held {
            at: std::ptr::null_mut(),
            alloc,
        }
    }

    /// Consumes a value that owns nothing, and returns the value's allocator.
    pub fn end(self) -> Global
        requires { is_some self.home ≡ false }
        ensures { result ≡ self.alloc }
    {
        let Held { at: _, alloc } = self;
        alloc
    }
}
