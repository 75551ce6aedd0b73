// The faults that a strict receiver finds.

/// The first fault that a strict receiver finds in the packets that it receives. Own rule.
#[derive(Clone, Copy, Debug, PartialEq, Eq)]
pub enum Complaint {
    /// The bytes aren't an RTP packet, the payload is empty or broken, or the descriptor is missing or can't be parsed. Or the descriptor carries a
    /// structure that isn't in force, and the packet doesn't begin a key frame.
    Unread,
    /// The packet's SSRC `got` differs from `had`, the SSRC of the first packet.
    OtherSource { had: u32, got: u32 },
    /// The packet's sequence number is `got`, but the expected one is `had` + 1, modulo 65,536. `had` is the sequence number of the previous packet.
    Sequence { had: u16, got: u16 },
    /// The packet's descriptor carries no template dependency structure, and no earlier packet carried one.
    NoStructure,
    /// The packets of a frame don't form a complete frame.
    NotWhole,
    /// The frame with the 16-bit frame number `frame` refers to a frame `fdiff` numbers back, which isn't in the set of received frames. Before this
    /// check, a key frame empties the set, and so does a frame whose unwrapped number isn't above that of the newest frame.
    MissingReference { frame: u16, fdiff: u16 },
}
