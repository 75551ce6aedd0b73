//! The input loop of all commands. It cuts the input into units (for example lines), judges each unit, and writes the texts that are due for the units.
#![tactic(auto)]

mod conclusion;
mod cut;
mod driver;
mod halt;
mod judge;
mod laws;
mod lines;
mod sink;
mod statuses;
#[cfg(test)]
mod tests;
mod units;

pub use conclusion::{answer, answer_behind};
pub use cut::{Cut, Found, Last, MOST_UNIT};
pub use driver::{MOST_PIECE, drive, drive_behind};
pub use halt::{Ending, Halt, Interruption};
pub use judge::Judge;
pub use laws::{bytes_make_lines, bytes_make_units};
pub use lines::Lines;
pub use sink::write_all;
pub use statuses::Status;
pub use units::Units;
