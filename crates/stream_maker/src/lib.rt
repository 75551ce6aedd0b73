//! Makes a layered AV1 stream over RTP from a seed. A random generator decides which packets are lost, repeated and swapped; the same seed makes the
//! same stream. The stream simulates a publisher behind a bad network. Only the functions that return texts about a stream allocate memory.
#![tactic(auto)]

mod counts;
mod due;
mod event;
mod fate;
mod maker;
mod packet;
mod place;
mod state;
mod summary;

pub use counts::Counts;
pub use event::Event;
pub use maker::Maker;
pub use summary::{counts_text, made_text};
