//! Readers for the lines of scripts: calls on a room, packets, actors' calls and UDP ports. The writers are in `script_texts` and
//! re-exported here.
#![tactic(auto)]

mod actor_line;
mod commands;
mod fields;
mod hex_text;
mod kept_calls;
mod laws;
mod line_reader;
mod lines;
mod packet_line;
mod ports;
mod skipped;
#[cfg(test)]
mod tests;
mod words;

pub use actor_line::read_actor_line;
pub use fields::{Field, read_fields};
pub use kept_calls::{KeptCalls, set_packet, set_take, set_tick};
pub use laws::{
    lines_read_back, lines_say_one_call, reads_exactly_the_actors_lines, reads_exactly_the_lines,
    reads_exactly_the_packets, reads_exactly_the_ports, replies_say_one_answer,
};
pub use line_reader::LineReader;
pub use lines::{NoLine, read_call};
pub use packet_line::{PacketReader, read_packet};
pub use ports::{PortLine, PortRole, read_port};
pub use script_texts::{
    Actors, Calls, Entry, Journal, add_fault, add_record_fault, add_reply, wants_memory,
    write_call, write_complaint, write_end, write_entry, write_line_fault, write_obu,
    write_record_fault, write_reply, write_short,
};
pub use skipped::is_skipped;
pub use words::split;
