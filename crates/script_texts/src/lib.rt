//! The texts of scripts and of the commands' output: the lines of calls, the replies, the journals, the complaints, the ends of sessions, and the faults.
//! A fault names the line or record that is outside the grammar.
#![tactic(auto)]

mod byte_ranges;
mod complaints;
mod ends;
mod entries;
mod hex_text;
mod journal;
mod line_fault;
mod number_text;
mod obu_fault;
mod pieces;
mod record_fault;
mod refusals;
mod replies;
mod short;
mod undo;
mod verdicts;
mod whole_lines;
mod written_lines;

pub use complaints::write_complaint;
pub use ends::write_end;
pub use entries::write_entry;
pub use journal::{Actors, Calls, Entry, Journal};
pub use line_fault::write_line_fault;
pub use obu_fault::write_obu;
pub use record_fault::write_record_fault;
pub use replies::write_reply;
pub use short::write_short;
pub use whole_lines::{add_fault, add_record_fault, add_reply, end_line, wants_memory};
pub use written_lines::write_call;
