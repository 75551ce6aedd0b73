//! A bundle merges several streams, its legs, into one. This crate decides which packets of the legs are forwarded, and with which timestamps. One
//! leg is forwarded at a time. The bundle changes to another leg only at a key frame, and only if the last forwarded packet ended its frame. On
//! request, the packets get frame numbers that continue over a change of leg. No call allocates memory.
#![tactic(auto)]

mod frame_numbers;
mod laws;
mod marks;
mod switch;

pub use frame_numbers::FrameNumbers;
pub use laws::{
    bundles_please_receivers, changes_step_the_timestamp, frame_numbers_are_read,
    frame_numbers_go_on, key_starts_go_out_between_frames, only_frame_numbers_differ,
    outgoing_only_grows, renumbered_bundles_please_receivers, renumbered_outgoing_only_grows,
};
pub use switch::Switch;

#[cfg(test)]
mod tests;
