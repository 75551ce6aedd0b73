//! Reads the payload of AV1 RTP packets (RTP Payload Format For AV1, section 4.4): its flags and its elements. No call allocates memory.
#![tactic(auto)]

mod elements;
mod fault;
mod laws;
mod leb;
mod left;
mod payload;

pub use elements::PayloadElements;
pub use fault::PayloadFault;
pub use laws::{
    a_payload_has_one_reading, each_faultless_payload_is_in_the_grammar, faults_are_what_they_say,
};
pub use leb::split_length;
pub use payload::{Payload, read};
