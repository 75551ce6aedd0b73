//! A set of frame numbers to which a later frame can still refer. Numbers are inserted in ascending order. The set keeps the greatest number, and the
//! inserted numbers at most 4,096 below it. The set has a fixed size and allocates no memory.
#![tactic(auto)]

mod laws;
mod window;
mod words;

pub use laws::{forgotten_numbers_are_never_wanted, held_numbers_are_enough};
pub use window::RefWindow;
