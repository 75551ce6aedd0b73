// Reads configurations of ports, to their end: the calls to make first, and the ports to serve.
mod reader;
mod reading;
#[cfg(test)]
mod tests;

pub use reader::Served;
pub use reading::read_served;
