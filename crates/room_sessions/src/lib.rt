//! Runs, in one thread, the sessions of a room's publishers and subscribers. `work` makes a session's calls on the room. It stops when the session
//! has a datagram to send, or has no call left.
#![tactic(auto)]

mod either;
mod working;

pub use either::EitherSession;
pub use working::work;
