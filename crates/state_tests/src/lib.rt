#![tactic(auto)]
//! Tests of the small crates between the formats and the room: numbers, slots, rings, frames, references, chains and causes. Also tests the crate
//! `stream_maker`. The tests aren't in those crates, since a crate with tests is proved twice.

#[cfg(test)]
mod cause_book_tests;
#[cfg(test)]
mod chain_state_tests;
#[cfg(test)]
mod frame_assembly_tests;
#[cfg(test)]
mod out_ring_tests;
#[cfg(test)]
mod packet_slot_tests;
#[cfg(test)]
mod ref_window_tests;
#[cfg(test)]
mod stream_maker_tests;
#[cfg(test)]
mod wrap_number_tests;
