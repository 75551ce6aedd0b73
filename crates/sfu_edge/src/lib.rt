//! The edge to the operating system: sources and sinks over std's readers and writers, links and ports over UDP sockets, and the system's clock.
//! All of these implement the traits for input and output of `sfu_base`. All but the clock count their faults. Their contracts don't say which
//! bytes a file, a terminal or a socket delivers.
#![tactic(auto)]

mod receive_buffer;
mod standard;
mod system_clock;
mod trouble;
mod udp;
mod wake_table;

pub use standard::{StdSink, StdSource};
pub use system_clock::SysClock;
pub use udp::{UdpLink, UdpPorts};
pub use wake_table::WakeTable;

#[cfg(test)]
mod tests;
