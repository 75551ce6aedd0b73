//! The parts of a history. Values of these types exist only in proofs.
use std::collections::LinkedList;

/// One call in the history, made by a seat in a turn.
pub struct Entry<C> {
    /// The seat's number.
    pub seat: u32,
    pub call: C,
    /// Whether the reply says that memory ran out.
    pub starved: bool,
}

/// A seat that was joined into the first seat. The first seat has number 0.
pub struct Joined<C> {
    /// The seat's number, which is above 0.
    pub number: u32,
    /// The seat's entries, in the order of the history.
    pub own: LinkedList<Entry<C>>,
}
