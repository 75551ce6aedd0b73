//! A strict receiver checks the packets of one layered track, and returns its first complaint about them. The receiver knows only the packets
//! and the header extension id of their dependency descriptors. A forwarder's packets are right if the receiver has no complaint. Only the
//! constructor allocates memory.
#![tactic(auto)]

mod frame;
mod joining;
mod laws;
mod received;
mod receiver;
mod state;
#[cfg(test)]
mod tests;

pub use forwarding_model::Complaint;
pub use laws::{bytes_are_judged_as_their_packets, receivers_return_their_complaint};
pub use receiver::Receiver;
