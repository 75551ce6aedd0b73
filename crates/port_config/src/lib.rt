//! Reads a small text to its end before a command begins: a script of actors or a configuration of ports. Also makes the journal of the actors' turns, and
//! the journal's text.
#![tactic(auto)]

mod actors;
mod ports;
mod reading;

pub use actors::{Placed, in_order, journal_entry, put_all, put_last, read_actors, text_of};
pub use ports::{Served, read_served};
