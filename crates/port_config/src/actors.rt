// Scripts of actors: reads the calls of each actor, to the script's end, and writes the journal of the actors' turns.
mod lists;
mod reader;
mod reading;
#[cfg(test)]
mod tests;
mod turns;
mod writing;

pub use lists::{put_all, put_last};
pub use reading::read_actors;
pub use turns::{Placed, in_order, journal_entry};
pub use writing::text_of;
