// The state that a receiver keeps of a frame that has begun.

ghost use Rattle.std.specs.Prelude.{◌≡◌, ◌≤◌, true};
ghost use Rattle.strict_receiver.specs.Near.{are_near};

/// The parts of a frame's first descriptor that a receiver uses.
#[derive(Clone, Copy, Debug)]
pub struct FrameStart {
    /// The frame number modulo 65,536.
    pub number: u16,
    /// Whether the frame is a key frame.
    pub key: bool,
    /// How many frames the frame refers to, at most 16.
    pub ref_count: u8,
    /// For each referenced frame, the distance back to it in frame numbers, 1 to 4,096 (frame_fdiff). Only the first `ref_count` entries are used.
    pub refs: [u16; 16],
    ghost few: { ref_count ≤ 16 },
    ghost near: { are_near ref_count refs ≡ true },
}

/// A frame that has begun.
#[derive(Clone, Copy, Debug)]
pub struct OpenFrame {
    pub start: FrameStart,
    /// How many packets the frame has so far, at most 512.
    pub packets: u16,
    /// Y of the last packet: whether its last element is unfinished. If so, the next packet must continue this element (RTP Payload Format For AV1,
    /// section 4.4).
    pub carries: bool,
}
