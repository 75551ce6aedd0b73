// A session's handle.
ghost use Rattle.std.specs.Prelude.{◌≡◌, None, Some, is_some};
ghost use Rattle.std.specs.Option.{option_map};

use crate::attended::Attended;
use crate::held_session::HeldSession;
use crate::parts::Parts;
use std::alloc::Global;
use std::mem::replace;

/// A handle that has one session or no session. The handle has 16 bytes, which C stores. At first, all of these bytes are 0. C may pass the handle from
/// thread to thread.
#[repr(C)]
pub struct SessionHandle {
    made: bool,
    pub held: HeldSession,
    pub ghost agree: { is_some held.attended ≡ made },
}

impl SessionHandle {
    /// Returns a handle that has no session.
    pub fn empty(alloc: Global) -> SessionHandle
        ensures { result.held.attended ≡ None }
    {
        SessionHandle {
            made: false,
            held: HeldSession::nothing(alloc),
        }
    }

    /// Returns a handle that has this session.
    pub fn of(attended: Box<Attended>) -> SessionHandle
        ensures { result.held.attended ≡ Some attended.value }
    {
        SessionHandle {
            made: true,
            held: HeldSession::of_parts(Parts::of(attended)),
        }
    }

    /// Returns the handle's session, or `None` if the handle has no session.
    pub fn into_attended(self) -> Option<Box<Attended>>
        ensures { self.held.attended ≡ option_map (λ attended. attended.value) result }
    {
        let SessionHandle { made, held } = self;
        if made {
            Some(held.into_parts().into_box())
        } else {
            held.end();
            None
        }
    }

    /// Removes the handle's session, and returns this session. Returns `None` if the handle had no session. Afterwards the handle has no session.
    pub fn take(&mut self, alloc: Global) -> Option<Box<Attended>>
        ensures taken { self.old.held.attended ≡ option_map (λ attended. attended.value) result }
        ensures empty { self.new.held.attended ≡ None }
    {
        replace(self, SessionHandle::empty(alloc)).into_attended()
    }

    /// Puts this session into the handle. If the handle already had a session, drops the old one.
    pub fn put(&mut self, attended: Box<Attended>)
        ensures { self.new.held.attended ≡ Some attended.value }
    {
        drop(replace(self, SessionHandle::of(attended)).into_attended());
    }
}
