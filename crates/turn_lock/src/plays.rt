//! The rule of the lock, and how each kind of step changes the view of the seat that makes the step.
use crate::held::{Held, Naming};
use crate::view::View;
use atomic_table::{Join, Play, Split, TableRule};
use std::marker::PhantomData;

/// The rule of the lock's table. The rule's key is the place of the first entry.
pub(crate) struct Ticketed<H> {
    held: PhantomData<H>,
}

impl<H: Held> TableRule<Option<H>, View<H::Call>, u64> for Ticketed<H> {
    ghost use Rattle.turn_lock.specs.Rule.{Kept};
    ghost use Rattle.turn_lock.specs.Views.{first_seat};

    ghost holds = { λ first. Kept H.stands first };

    ghost first = { λ first. first_seat first };
}

/// Draws the next ticket if its number is the expected one.
pub(crate) struct Draw;

impl<H, C> Play<Option<H>, View<C>> for Draw {
    ghost use Rattle.turn_lock.specs.Rule.{drew};

    ghost then = { drew };
}

/// Reads which ticket is being served. If the seat waits for that ticket, the seat takes the value.
pub(crate) struct Look<H> {
    held: PhantomData<H>,
}

impl<H: Held> Play<Option<H>, View<H::Call>> for Look<H> {
    ghost use Rattle.turn_lock.specs.Rule.{looked};

    ghost then = { looked H.stands };
}

/// Puts the value back, makes the next ticket the served one, and adds entries to the history.
pub(crate) struct Serve<J> {
    naming: PhantomData<J>,
}

impl<H, C, J: Naming<C>> Play<Option<H>, View<C>> for Serve<J> {
    ghost use Rattle.turn_lock.specs.Rule.{served};

    ghost then = { served J.adds };
}

/// Changes nothing. After a join, this step shows that the two seats have seen prefixes of one history.
pub(crate) struct Peek;

impl<H, C> Play<Option<H>, View<C>> for Peek {
    ghost use Rattle.turn_lock.specs.Rule.{peeked};

    ghost then = { peeked };
}

/// Makes a seat with the next number.
pub(crate) struct Next;

impl<C> Split<View<C>> for Next {
    ghost use Rattle.turn_lock.specs.Views.{counting, next_seat};

    ghost left = { counting };

    ghost right = { next_seat };
}

/// Joins a seat into the first one.
pub(crate) struct Both;

impl<C> Join<View<C>> for Both {
    ghost use Rattle.turn_lock.specs.Views.{joining, spent_seat};

    ghost both = { joining };

    ghost spent = { spent_seat };
}
