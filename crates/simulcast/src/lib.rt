//! Simulcast. A bundle merges the packets of two or three subscribers of a room into one outgoing stream.
#![tactic(auto)]

mod bundle;
mod bundles;
mod draining;
mod fault;
mod laws;
mod order;
mod pumped;
mod taken;

pub use bundles::Bundles;
pub use fault::BundleFault;
pub use laws::{
    every_call_keeps_what_is_promised, key_starts_go_out_once_the_active_leg_is_drained,
    what_was_drawn_stays,
};
pub use pumped::Pumped;

#[cfg(test)]
mod tests;
