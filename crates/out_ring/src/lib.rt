//! The packets of one subscriber: those in the queue, and the last 1,024 packets taken from it, which are kept for retransmission. If a `PacketStore`
//! has a free buffer, a packet for many subscribers is stored only once. Only `OutRing::new` and `PacketStore::grow` allocate memory.
#![tactic(auto)]

mod heads;
mod laws;
mod packet;
mod pages;
mod places;
mod ring;
mod slots;
mod store;

pub use laws::a_ring_stores_what_goes_out;
pub use ring::OutRing;
pub use store::{PacketStore, SharedPacket};
