// Addresses of UDP ports.

/// An IPv4 address and a UDP port.
#[derive(Clone, Copy, Debug, PartialEq, Eq)]
pub struct Address {
    /// The four bytes of the IPv4 address, the first in the highest bits.
    pub ip: u32,
    /// The UDP port.
    pub port: u16,
}
