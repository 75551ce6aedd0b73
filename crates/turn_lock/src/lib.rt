//! A lock that puts all calls on its value into one history.
//!
//! Threads share a `Turns`. Each thread has its own `Seat`. A turn serves one call on the value behind the lock, and returns the call's place in the
//! one history of all turns. For each seat, contracts see the prefix of the history that the seat has seen, and the seat's own entries.
#![tactic(auto)]

mod held;
mod history;
mod lock;
mod plays;
mod view;

pub use held::Held;
pub use history::{Entry, Joined};
pub use lock::{Seat, Turn, Turns, Worn};

#[cfg(test)]
mod tests;
