//! The command `together`: actors make their calls on one room at the same time, and the command writes the journal of their turns.
#![tactic(auto)]

mod acting;
mod cast;
mod command;
mod gate;
mod played_room;
mod running;

pub use command::play_script;

#[cfg(test)]
mod tests;
