//! What a seat knows. Values of these types exist only in proofs.
use crate::history::{Entry, Joined};
use std::collections::LinkedList;

/// A seat's progress in a turn.
pub enum Stage {
    /// The seat isn't in a turn.
    Idle,
    /// The seat has drawn this ticket and waits until the lock serves it.
    Waiting(u64),
    /// The lock serves this ticket, which the seat has drawn. The seat has taken the value.
    Holding(u64),
    /// The seat was joined into the first seat and makes no more turns.
    Spent,
}

/// What a seat knows about the lock and the history.
pub struct View<C> {
    /// The place of the history's first entry.
    pub base: u64,
    pub number: u32,
    /// The prefix of the history that the seat has seen.
    pub seen: LinkedList<Entry<C>>,
    pub own: LinkedList<Entry<C>>,
    /// Each draw of a seat reads the number of the next ticket. This is the greatest number that a draw of this seat read, or 0 before the first
    /// draw. For the first seat, the draws of the seats joined into it count too.
    pub found: u64,
    /// For the first seat: the number of seats made so far, including this one.
    pub count: u32,
    /// For the first seat: the seats that were joined into it.
    pub joined: LinkedList<Joined<C>>,
    /// For the first seat: the shorter of the two prefixes that the two seats of the last join had seen. It is empty before the first join.
    pub beside: LinkedList<Entry<C>>,
    pub stage: Stage,
}
