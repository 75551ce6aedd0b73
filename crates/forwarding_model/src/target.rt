// The decode target that is forwarded to a subscriber.

/// The reason why no decode target is open (own rule). Frame numbers are unwrapped.
#[derive(Clone, Copy, Debug, PartialEq, Eq)]
pub enum Reason {
    /// The target's chain was broken at frame `at`. The previous frame of the chain is frame `number`, which wasn't forwarded.
    BrokenLink { at: u64, number: u64 },
    /// No target has been opened since frame `since`. Frame `since` was the first frame of its epoch to arrive, or its mask
    /// (active_decode_targets_bitmask) lacked the decode target that was open until then. Before the first frame, `since` is 0.
    NotOpened { since: u64 },
}

/// The decode target that is forwarded to a subscriber, or the reason why there is none (own rule).
#[derive(Clone, Copy, Debug, PartialEq, Eq)]
pub enum CurrentTarget {
    /// Decode target `index` is open. It was opened at frame `opened`.
    Open { index: u8, opened: u64 },
    /// No decode target is open.
    Closed { reason: Reason },
}
