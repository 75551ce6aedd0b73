//! Theorems about converted scripts, the packets of a trial, and the packets that a subscriber took and `record` reads.
#![tactic(auto)]

mod laws;

pub use laws::{
    converted_scripts_run_alike, made_packets_say_their_places, taken_packets_arent_complained_of,
};
