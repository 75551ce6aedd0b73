// The events of a stream.

/// What comes next in a stream. Moments are in milliseconds.
#[derive(Clone, Copy, Debug, PartialEq, Eq)]
pub enum Event {
    /// A packet is sent; the buffer has its bytes. The moment is that of the packet's own unit, even if the packet was held back.
    Packet { moment: u64 },
    /// The clock is to be advanced to this moment. A tick follows each unit, at the unit's
    /// moment. One more tick comes 1,000 milliseconds after the last unit's moment.
    Tick { moment: u64 },
    /// The stream is over.
    End,
}
