// The room behind the actors' lock.
ghost use Rattle.std.specs.Prelude.{◌≡◌, false};
ghost use Rattle.sfu_base.specs.Answer.{is_starved, answer_of};
ghost use Rattle.sfu_together.specs.Turns.{entries_of};
ghost use Rattle.room_core.specs.History.{reply_of};
ghost use Rattle.room_core.specs.Serves.{Stands};

use room_core::{KeepNone, Recorder, Room};
use sfu_base::{Call, Reply, Scratch};
use turn_lock::Held;

/// A room behind a lock; the room's recorder stores nothing. In each turn, one seat makes one call on the room. Between turns the room represents the
/// history of all turns.
#[derive(Drop)]
pub struct PlayedRoom {
    pub room: Room<KeepNone>,
}

impl Held for PlayedRoom {
    type Call = Call;

    type Reply = Reply;

    type Scratch = Scratch;

    ghost stands = { λ played history. Stands ⟦<KeepNone as Recorder>⟧.noted played.room (entries_of history) };

    ghost gives = { λ history seat call reply scratch. is_starved reply ≡ false
        → answer_of reply scratch.packet scratch.names ≡ reply_of (entries_of history) call };

    ghost starves = { is_starved };

    fn serve(&mut self, seat: u32, call: &Call, scratch: &mut Scratch) -> Reply {
        self.room.serve(seat, call, scratch)
    }
}
