//! The values that a lock may protect.
ghost use Rattle.std.specs.Prelude.{ℕ, Bool, List, [], ◌∷◌, ◌++◌};
ghost use Rattle.turn_lock.specs.declared.history.Entry.{Entry};
ghost use Rattle.turn_lock.specs.History.{entry};

use std::marker::Brand;

/// A value that serves calls. In contracts, the value represents the list of the calls that it has served.
pub trait Held: Drop {
    type Call;

    type Reply;

    /// The caller's buffers, for the parts of a reply that are too large for `Reply`.
    type Scratch;

    /// Whether the value represents this list of entries.
    ghost stands: { Self → List (Entry Self.Call) → Type 0 };

    /// Whether this call, made after these entries by the seat with this number, may return this reply and leave this content in the scratch.
    ghost gives: { List (Entry Self.Call) → ℕ → Self.Call → Self.Reply → Self.Scratch → Type 0 };

    /// Whether the reply says that memory ran out.
    ghost starves: { Self.Reply → Bool };

    /// Serves a call of the seat with the number `seat`, and appends the call's entry to the value's list.
    fn serve(&mut self, seat: u32, call: &Self::Call, scratch: &mut Self::Scratch) -> Self::Reply
        ensures { (h : List (Entry Self.Call)) → stands self.old h → stands self.new (h ++ entry seat call.now (starves result) ∷ [])
            × gives h seat call.now result scratch.new };
}

/// The entries that one step of serving adds to the history. The caller of the step chooses them.
pub(crate) trait Naming<C> {
    ghost adds: { List (Entry C) };
}

impl<C> Naming<C> for Brand {
    ghost adds = { [] };
}
