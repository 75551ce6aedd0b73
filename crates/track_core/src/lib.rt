//! Processes the packets of one publisher's track. The packets may arrive in any order, and are put in order. On a plain track, the packets are then passed
//! on one by one. On a layered track, the packets are assembled into complete frames. Only the constructor allocates memory.
#![tactic(auto)]

mod counts;
mod layers;
mod track;

pub use counts::TrackCounts;
pub use layers::Layers;
pub use track::{Advance, Made, Track};

#[cfg(test)]
mod tests;
