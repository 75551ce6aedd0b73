//! Reads and writes RTCP feedback: generic NACKs and picture loss indications (RFC 4585). No call allocates memory.
#![tactic(auto)]

mod cursor;
mod fault;
mod feedback;
mod laws;
mod names;
mod packet;
mod queue;
mod reader;
#[cfg(test)]
mod tests;
mod writers;

pub use fault::RtcpFault;
pub use feedback::Feedback;
pub use laws::{
    a_datagram_has_one_reading, each_faultless_datagram_is_in_the_grammar,
    the_rule_makes_the_fewest_pairs, what_is_written_reads_back,
};
pub use queue::FeedbackQueue;
pub use reader::{Feedbacks, read};
pub use writers::{write_nack, write_pli};
