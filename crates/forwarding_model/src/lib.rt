//! The definitions of forwarding, which the contracts of the forwarder use.
//!
//! The definitions are in `specs/`, one topic per file. Read the files in this order:
//! - `forwarding`: a subscriber's events; which frames are forwarded to it, and in which packets; why other frames aren't forwarded
//! - `frames`: how packets are read, and which frames they make
//! - `Receiver`: how a strict receiver checks packets
//! - `History`: what happens to each subscriber of a track
//!
//! The laws of these definitions are in `forwarding_laws`. The only code in this crate defines the types that the definitions share with other crates.
#![tactic(auto)]

mod complaint;
mod target;

pub use complaint::Complaint;
pub use target::{CurrentTarget, Reason};
