// The input of frame assembly for each packet (a mark), and the outcome of a mark.

/// The next item in the order of a layered track: a packet, or a gap. A mark has only what frame assembly needs.
#[derive(Clone, Copy, Debug, PartialEq, Eq)]
pub enum Mark {
    /// Packets are missing here, and are no longer waited for.
    Gone,
    /// A packet without a payload.
    Pad,
    /// A packet whose descriptor or payload can't be read.
    Unread,
    /// A part of a frame.
    Part {
        /// start_of_frame of the dependency descriptor.
        start: bool,
        /// end_of_frame of the dependency descriptor.
        end: bool,
        /// frame_number of the dependency descriptor.
        number: u16,
        /// Z: the packet's first element continues the last element of the previous packet.
        continues: bool,
        /// Y: the packet's last element continues in the next packet.
        carries: bool,
    },
}

/// The effect of a mark on the frame under assembly.
#[derive(Clone, Copy, Debug, PartialEq, Eq)]
pub enum Outcome {
    /// The frame isn't complete yet.
    Partial,
    /// The frame is complete.
    Whole,
    /// This packet and the earlier packets of the frame under assembly are dropped. No frame is under assembly any more.
    Torn,
    /// The packet is padding. An unfinished frame stays as it is.
    Pad,
}
