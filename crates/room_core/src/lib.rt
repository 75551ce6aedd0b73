//! A room forwards the packets of publishers to subscribers. It determines the packets that are sent to each subscriber, and the reply to each call.
//! The room's contracts describe the history of all calls on the room. The room doesn't store this history; a recorder can store it.
#![tactic(auto)]

mod beginning;
mod content;
mod counts;
mod current_target;
mod feed;
mod keep_all;
mod laws;
mod live;
mod memory;
mod note;
mod passing;
mod ready;
mod recorder;
mod refusals;
mod room;
mod sending;
mod subscribers;
mod table;
#[cfg(test)]
mod tests;
mod track_places;
mod track_questions;
mod tracks;

pub use counts::SubscriberCounts;
pub use current_target::DecodeTarget;
pub use keep_all::KeepAll;
pub use laws::frames_open_their_targets;
pub use recorder::{KeepNone, Recorder};
pub use room::Room;
pub use track_core::TrackCounts;
