//! The command `run`: serves the calls of a script on a room, and writes their replies.
#![tactic(auto)]

mod command;
mod server;
mod texts;

pub use command::run;
