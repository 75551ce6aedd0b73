//! A buffer of fixed size for one packet that a track keeps. No call allocates memory.
#![tactic(auto)]

ghost use Rattle.std.specs.Prelude.{◌≡◌, ◌≤◌, [], length};

use std::marker::Model;

/// The longest packet that a track accepts, in bytes (own rule).
pub const PACKET_BYTES: usize = 1500;

/// A buffer of up to 1,500 bytes. Contracts see it as the list of its bytes. No call allocates memory.
#[derive(Debug, Drop)]
pub struct PacketSlot {
    buf: [u8; PACKET_BYTES],
    // the index of the first byte; the bytes end at the end of the array
    start: usize,
}

impl Model for PacketSlot {
    ghost use Rattle.std.specs.Prelude.{List, ℕ, drop, ◌≤◌};

    ghost Value = { List ℕ };

    ghost view = { λ p. drop p.start p.buf };

    ghost invariant = { λ p. p.start ≤ 1500 };
}

impl PacketSlot {
    /// An empty slot.
    pub fn new() -> PacketSlot
        ensures { result ≡ [] }
    {
        PacketSlot {
            buf: [0; PACKET_BYTES],
            start: PACKET_BYTES,
        }
    }

    /// Replaces the contents with these bytes. There may be at most 1,500 bytes.
    pub fn fill(&mut self, bytes: &[u8])
        requires fits { length bytes.now ≤ 1500 }
        ensures { self.new ≡ bytes.now }
    {
        let start = PACKET_BYTES - bytes.len();
        self.buf[start..].copy_from_slice(bytes);
        self.start = start;
    }

    /// The bytes, in order.
    pub fn bytes(&self) -> &[u8]
        ensures bytes { result.now ≡ self.now }
        ensures bounded { length self.now ≤ 1500 }
    {
        &self.buf[self.start..]
    }
}
