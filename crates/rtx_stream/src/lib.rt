//! Retransmission packets (RFC 4588, section 4). A packet is wrapped for a separate retransmission stream, and unwrapped again by the receiver.
//! No call allocates memory.
#![tactic(auto)]

mod fault;
mod header;
mod laws;
mod original;
mod retransmission;

pub use fault::RtxFault;
pub use laws::{
    a_packet_has_one_retransmission, a_packet_without_padding_is_bare,
    a_retransmission_has_one_original, each_retransmission_unwraps,
};
pub use original::unwrap;
pub use retransmission::{Rtx, wrap};
