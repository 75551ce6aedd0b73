// The command `simulcast`: serves a script whose lines may also be calls on bundles.
mod command;
mod server;

pub use command::run_with_bundles;
