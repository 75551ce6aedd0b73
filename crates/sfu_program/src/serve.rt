// The command `serve`.
mod acting;
mod command;
mod ends;
mod opening;
mod ports;
mod running;
mod words;

pub use command::serve;
pub use words::read_serve;
