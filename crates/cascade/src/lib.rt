//! A cascade of two rooms. The packets that a subscriber of the first room takes are fed to a track of the second room. The second room forwards
//! them to the subscribers of this track. Own rules.
//!
//! [`feed`] moves the packets of one subscriber to one track. The laws say how the second room forwards these packets. [`play`] sends a generated
//! stream through two rooms, with a strict receiver for each subscriber of the second room. The command [`cascade`] writes what the receivers
//! found. The command [`trial`] does the same with one room.
#![tactic(auto)]

mod command;
mod endpoint;
mod feeding;
mod laws;
mod playing;
mod stream_trial;
mod summing;
#[cfg(test)]
mod tests;
mod two_rooms;

pub use command::cascade;
pub use endpoint::Endpoint;
pub use feeding::{Fed, feed};
pub use laws::{
    cascades_feed, cascades_hold, feeds_are_enough, feeds_keep_tracks_fed, layered_tracks_go_on,
    plain_tracks_go_on, runs_go_on, takes_are_enough,
};
pub use playing::play;
pub use stream_trial::trial;
pub use two_rooms::TwoRooms;
