// Opens and closes rooms.
ghost use Rattle.std.specs.Prelude.{◌≡◌, ◌≢◌, [], IfSome, IsSome, None};
ghost use Rattle.simulcast.specs.Bundles.{StandsFor, nothing_made};
ghost use Rattle.room_c.specs.declared.code.Code.TheVariants.{Done, HasRoom, NoMemory};
ghost use Rattle.room_c.specs.Codes.{code_number};
ghost use Rattle.room_c.specs.Recording.{unrecorded};

use crate::code::Code;
use crate::handle::Handle;
use crate::home::Home;
use std::alloc::Global;

/// Opens a room behind a handle that has no room. Returns `Done`. `HasRoom`: the handle already has a room; nothing changes. `NoMemory`: memory ran out, and
/// the handle still has no room.
#[unsafe(no_mangle)]
pub extern "C" fn zoftemar_open(alloc: Global, room: &mut Handle) -> u32
    ensures opened { result ≡ code_number Done → IfSome room.new.held.home (λ home. StandsFor unrecorded home.bundles (nothing_made [])) × IsSome room.new.held.home }
    ensures kept { IsSome room.old.held.home → (result ≡ code_number HasRoom) × (room.new.held.home ≡ room.old.held.home) }
    ensures wants { result ≡ code_number NoMemory → room.new.held.home ≡ None }
    ensures only { result ≢ code_number Done → result ≢ code_number NoMemory → IsSome room.old.held.home }
{
    match room.take(alloc) {
        Some(home) => {
            room.put(home);
            Code::HasRoom as u32
        }
        None => match Box::new(alloc, Home::new(alloc)) {
            Ok(home) => {
                room.put(home);
                Code::Done as u32
            }
            Err(_) => Code::NoMemory as u32,
        },
    }
}

/// Closes the handle's room, with all tracks, subscribers and bundles of the room. Afterwards the handle has no room, and another room may be opened behind the
/// handle.
#[unsafe(no_mangle)]
pub extern "C" fn zoftemar_close(alloc: Global, room: &mut Handle)
    ensures { room.new.held.home ≡ None }
{
    drop(room.take(alloc));
}
