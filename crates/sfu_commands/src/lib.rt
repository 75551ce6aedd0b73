//! The single-threaded commands that need no room: how each command uses its source and its sink, and which status it returns. Also reads the
//! command-line arguments of all single-threaded commands.
#![tactic(auto)]

mod conversion;
mod id_words;
mod packet_check;
mod packet_recording;
mod stream_words;
mod usage;
mod words;

pub use conversion::convert;
pub use packet_check::check;
pub use packet_recording::record;
pub use usage::{help, refuse};
pub use words::{Command, read_words};
