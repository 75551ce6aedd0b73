//! Reads bits from bytes and writes bits to bytes, the highest bit of each byte first.
//!
//! An AV1 dependency descriptor has two kinds of fields (RTP Payload Format For AV1 v1.0, Appendix A). An f(n) field holds a number in n bits. An
//! ns(n) field holds a number below n, in a variable number of bits. [`BitReader`] reads such fields from a slice. [`BitWriter`] appends them to a
//! buffer of 2,040 bytes. Nothing here allocates memory.
#![tactic(auto)]

mod digits;
mod laws;
mod reader;
mod writer;

pub use laws::{bits_read_back, ns_reads_back};
pub use reader::{BitReader, Short};
pub use writer::{BitWriter, NoRoom};
