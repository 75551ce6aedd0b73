// A room's handle.
ghost use Rattle.std.specs.Prelude.{◌≡◌, None, Some, is_some};
ghost use Rattle.std.specs.Option.{option_map};
ghost use Rattle.room_c.specs.Serving.{Does};

use crate::code::Code;
use crate::held::Held;
use crate::home::Home;
use crate::parts::Parts;
use crate::plain_reply::PlainReply;
use sfu_base::Call;
use std::alloc::Global;
use std::mem::replace;

/// A handle that has one room or no room. C stores the handle's 16 bytes. At first, all of these bytes are 0. C may pass the handle from thread to thread.
#[repr(C)]
pub struct Handle {
    made: bool,
    pub held: Held,
    pub ghost agree: { is_some held.home ≡ made },
}

impl Handle {
    /// Returns a handle that has no room.
    pub fn empty(alloc: Global) -> Handle
        ensures { result.held.home ≡ None }
    {
        Handle {
            made: false,
            held: Held::nothing(alloc),
        }
    }

    /// Returns a handle that has this room.
    pub fn of(home: Box<Home>) -> Handle
        ensures { result.held.home ≡ Some home.value }
    {
        Handle {
            made: true,
            held: Held::of_parts(Parts::of(home)),
        }
    }

    /// Returns whether the handle has a room.
    pub fn has_home(&self) -> bool
        ensures { result ≡ is_some self.now.held.home }
    {
        self.made
    }

    /// Returns the handle's room, or `None` if the handle has no room.
    pub fn into_home(self) -> Option<Box<Home>>
        ensures { self.held.home ≡ option_map (λ home. home.value) result }
    {
        let Handle { made, held } = self;
        if made {
            Some(held.into_parts().into_box())
        } else {
            held.end();
            None
        }
    }

    /// Removes the room from the handle, and returns the room. Returns `None` if the handle has no room. Afterwards the handle has no room.
    pub fn take(&mut self, alloc: Global) -> Option<Box<Home>>
        ensures taken { self.old.held.home ≡ option_map (λ home. home.value) result }
        ensures empty { self.new.held.home ≡ None }
    {
        replace(self, Handle::empty(alloc)).into_home()
    }

    /// Puts this room into the handle. If the handle already has a room, drops the old room.
    pub fn put(&mut self, home: Box<Home>)
        ensures { self.new.held.home ≡ Some home.value }
    {
        drop(replace(self, Handle::of(home)).into_home());
    }

    /// Serves one call on the room. `seat` identifies the caller. Returns `NoRoom` if the handle has no room. Returns `Bound` if the call is a `Take` or a
    /// `Leave`, and its subscriber is a leg of a bundle. With either code nothing changes.
    pub fn serve(&mut self, alloc: Global, seat: u32, call: &Call) -> PlainReply
        ensures does { Does self.old.held.home self.new.held.home seat call.now result }
    {
        let Some(mut home) = self.take(alloc) else {
            return PlainReply::bare(Code::NoRoom);
        };
        let Home {
            bundles,
            scratch,
            inbox: _,
        } = &mut *home;
        let answer = bundles.call(seat, call, scratch);
        let rc = PlainReply::of_answer(answer, scratch);
        self.put(home);
        rc
    }
}
