//! The lines of scripts with bundles, and the replies that occur only in these scripts. A bundle merges the packets of two or three subscribers into one
//! outgoing stream.
#![tactic(auto)]

mod command;
mod laws;
mod line;
mod reader;
mod replies;
#[cfg(test)]
mod tests;

pub use laws::{
    bundle_lines_say_one_thing, every_line_of_a_call_says_it, reads_exactly_the_bundle_lines,
};
pub use line::BundleLine;
pub use reader::read_bundle_line;
pub use replies::{BundleReply, add_bundle_reply};
