//! Records for the last 4,096 frame numbers whether each frame was forwarded to a subscriber, and why. Also checks whether a list of causes is a path to a
//! root cause. Only the constructor allocates memory.
#![tactic(auto)]

mod book;
mod entry;
mod laws;
mod path;

pub use book::CauseBook;
pub use laws::a_book_has_causes;
pub use path::check_path;
