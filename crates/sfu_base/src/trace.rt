// A record of what happened to a value, for proofs only.
ghost use Rattle.std.specs.Prelude.{◌≡◌, List, [], ◌∷◌, ◌++◌};
ghost use Rattle.std.specs.Borrow.{ftrue};

use std::marker::{Model, PhantomData};

/// A list of pairs, in the order in which they were added. Only contracts see the pairs, as `items`. At run time a trace takes no memory, and
/// its methods do nothing.
#[derive(Drop)]
pub struct Trace<A, B> {
    of: PhantomData<(A, B)>,
    pub ghost items: { List (A × B) },
}

impl<A, B> Model for Trace<A, B> {
    ghost also_owns = { λ _. ftrue };
}

// A trace owns nothing, so it can be sent to another thread.
unsafe impl<A: Send, B: Send> Send for Trace<A, B> {}

impl<A, B> Trace<A, B> {
    /// A trace without pairs.
    pub fn new() -> Trace<A, B>
        ensures { result.items ≡ [] }
    {
        Trace { of: PhantomData }
    }

    /// This trace with one more pair at its end.
    pub fn and(&self, first: &A, second: &B) -> Trace<A, B>
        ensures { result.items ≡ self.now.items ++ (first.now, second.now) ∷ [] }
    {
        Trace { of: PhantomData }
    }
}
