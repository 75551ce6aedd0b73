//! A set of places (indices) in a table: for example, the places of one group's entries. The set has a fixed size, with one bit for each of 256
//! places. It allocates no memory.
#![tactic(auto)]

mod set;

pub use set::PlaceSet;
