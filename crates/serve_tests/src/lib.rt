#![tactic(auto)]
//! Tests of `session_steps` and `sfu_serve`: sessions that run step by step in one thread, a room behind a lock, sessions over links in memory, and
//! concurrent sessions. The tests aren't in those two crates, because a crate with tests is proved twice.

#[cfg(test)]
mod rtx_tests;
#[cfg(test)]
mod run_tests;
#[cfg(test)]
mod session_tests;
#[cfg(test)]
mod shared_room_tests;
#[cfg(test)]
mod step_tests;
