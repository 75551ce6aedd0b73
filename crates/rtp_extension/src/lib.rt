//! Reads and writes the elements of RTP header extensions (RFC 8285). No call allocates memory.
#![tactic(auto)]

mod block;
mod element;
mod form;
mod laws;
mod reblocked;
mod replaced;
mod writers;

pub use block::{elements, find};
pub use element::{Element, Elements};
pub use laws::{
    a_block_has_one_reading, a_new_block_has_the_old_elements_but_one,
    each_block_is_in_the_grammar, whole_blocks_join,
};
pub use reblocked::reblock;
pub use writers::{write_one, write_two};
