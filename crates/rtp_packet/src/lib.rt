//! Reads RTP packets, and rewrites fields of their header (RFC 3550, section 5.1).
#![tactic(auto)]

mod laws;
mod outgoing;
mod packet;

pub use laws::{
    a_packet_is_read, bytes_are_one_packet, bytes_without_fault_are_a_packet, plain_packets_read,
    the_timestamp_is_rewritten, three_fields_are_rewritten,
};
pub use outgoing::{restamp, rewrite};
pub use packet::{Rtp, read};
