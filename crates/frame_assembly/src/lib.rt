//! Assembles the packets of a layered track into complete frames. Only the constructor allocates memory.
#![tactic(auto)]

mod assembly;
mod frame;
mod laws;
mod mark;
mod packets;

pub use assembly::Assembly;
pub use laws::parts_join_as_their_packets_do;
pub use mark::{Mark, Outcome};
