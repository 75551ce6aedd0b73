//! The binary form of scripts: each record is a call on the room, as bytes. This crate also reads the calls of scripts in both forms: lines and records.
#![tactic(auto)]

mod call_reader;
mod fields;
mod form;
mod kind;
mod laws;
mod reader;
mod record_cut;
mod record_reader;
#[cfg(test)]
mod tests;
mod values;
mod writer;

pub use call_reader::{CallReader, read_line};
pub use form::Form;
pub use kind::may_have_length;
pub use laws::{
    converted_lines_say_the_same, lengths_read_back, reads_exactly_the_records,
    records_are_in_the_table, records_read_back, records_say_one_call,
};
pub use reader::{NoRecord, read_record};
pub use record_cut::{HEADER, Records};
pub use record_reader::RecordReader;
pub use writer::write_record;
