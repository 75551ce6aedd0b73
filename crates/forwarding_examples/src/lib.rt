//! Worked examples of forwarding. Packets, timelines and histories show what the definitions of `forwarding_model` yield. The results were worked out by hand.
//! Further examples show what the definitions of `forwarding_laws` reject. Each table of examples is the contract of a function with an empty body.
#![tactic(auto)]

mod forwarding;
mod frames;
mod histories;
mod receiver;
mod refusals;
mod taking;

pub use forwarding::{worked_selection, worked_timelines};
pub use frames::{worked_frames, worked_packets_have_a_format, worked_tracks};
pub use histories::{worked_history, worked_layers};
pub use receiver::{worked_complaints, worked_receptions};
pub use refusals::words_refuse_what_they_should;
pub use taking::no_queue_is_long;
