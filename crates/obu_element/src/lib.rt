//! Tools for the open bitstream units (OBUs) of AV1 in RTP payloads. The crate checks that the elements of consecutive packets join, and reads the
//! header of an OBU. No call allocates memory.
#![tactic(auto)]

mod joiner;
mod laws;
mod obu_header;

pub use joiner::{JoinFault, Joiner};
pub use laws::{a_header_has_one_reading, faultless_bytes_begin_with_a_header};
pub use obu_header::{ObuFault, ObuHeader, header};
