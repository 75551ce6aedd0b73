// The frames that count as received.

ghost use Rattle.std.specs.Prelude.{◌≡◌, ◌<◌, ◌≤◌, ◌+◌, ◌-◌, ◌^◌, ◌%◌, ℕ, List};
ghost use Rattle.std.specs.List.{AllByRecursion};
ghost use Rattle.forwarding_model.specs.Lists.{first_failing};
ghost use Rattle.forwarding_model.specs.Receiver.{Received, is_received, nothing_received, judge, placed};
ghost use Rattle.ref_window.specs.Numbers.{IsAboveAll, has_below, held_of};
ghost use Rattle.strict_receiver.specs.Frames.{header_said};
ghost use Rattle.strict_receiver.specs.Numbers.{AreKeptOf, Judges};

use crate::frame::FrameStart;
use ref_window::RefWindow;
use std::marker::Model;
use wrap_number::above;

/// The newest frame's number, and which frame numbers up to it were received. Only two things matter: the newest number modulo 65,536, and how far
/// below it the other numbers are. So all numbers are lowered by the same multiple of 65,536 before they get too high. Contracts see a `Received` of
/// `forwarding_model`.
#[derive(Debug, Drop)]
pub struct ReceivedFrames {
    newest: u64,
    window: RefWindow,
}

impl Model for ReceivedFrames {
    ghost use Rattle.std.specs.Prelude.{◌<◌, ◌+◌, ◌^◌};
    ghost use Rattle.forwarding_model.specs.Receiver.{Received};

    ghost Value = { Received };

    ghost view = { λ frames. record { newest = frames.newest; numbers = frames.window } };

    ghost invariant = { λ frames. frames.newest < 2 ^ 24 + 65536 };
}

/// If the newest number is this high or higher, all numbers are lowered.
const TOO_HIGH: u64 = 1 << 24;

/// A frame number may be at most this far above the newest, modulo 65,536. A number that is farther above counts as below the newest.
const FARTHEST_AHEAD: u64 = 32767;

/// The greatest distance, in frame numbers, from a frame to a frame that it refers to (frame_fdiff).
const SPAN: u64 = 4096;

impl ReceivedFrames {
    /// The state before the first frame.
    pub fn new() -> ReceivedFrames
        ensures { result ≡ nothing_received }
    {
        ReceivedFrames {
            newest: 0,
            window: RefWindow::new(),
        }
    }

    /// Judges a complete frame by its first descriptor. If all frames to which the frame refers were received, counts the frame itself as received
    /// and returns `None`. Otherwise returns the distance to the first referenced frame that wasn't received.
    pub fn judge(&mut self, start: &FrameStart) -> Option<u16>
        ensures { (received : Received) → AreKeptOf self.old received
            → Judges self.new result (judge received (header_said start.now)) }
    {
        self.keep_low();
        self.place(start.key, start.number);
        let missing = self.first_missing(&start.refs[..start.ref_count as usize]);
        if missing.is_none() {
            self.window.insert(self.newest);
        }
        missing
    }

    // Makes the frame's number the newest. A key frame, or a frame whose number isn't above the newest, clears the received numbers.
    fn place(&mut self, key: bool, number: u16)
        requires { self.old.newest < 2 ^ 24 }
        ensures { (references : List ℕ) → self.new ≡ placed self.old (record { number = number; key = key; references = references }) }
    {
        let next = above(self.newest, number);
        if key || next - self.newest > FARTHEST_AHEAD {
            self.window.reset();
            self.newest = u64::from(number);
        } else {
            self.newest = next;
        }
    }

    // The distances count down from the newest number. Returns the first distance whose frame wasn't received.
    fn first_missing(&self, distances: &[u16]) -> Option<u16>
        ensures { result ≡ first_failing (is_received self.now.numbers self.now.newest) distances.now }
    {
        for distance in distances {
            if !self.has(*distance) {
                return Some(*distance);
            }
        }
        None
    }

    // Whether the number at this distance below the newest was received.
    fn has(&self, distance: u16) -> bool
        ensures { result ≡ is_received self.now.numbers self.now.newest distance }
    {
        let distance = u64::from(distance);
        distance <= self.newest && self.window.holds(self.newest - distance)
    }

    // Lowers the numbers if they are too high.
    fn keep_low(&mut self)
        ensures low { self.new.newest < 2 ^ 24 }
        ensures same { (received : Received) → AreKeptOf self.old received → AreKeptOf self.new received }
    {
        if self.newest >= TOO_HIGH {
            self.lower();
        }
    }

    // Lowers all numbers by the same multiple of 65,536.
    #[cold]
    #[inline(never)]
    fn lower(&mut self)
        requires { 2 ^ 24 ≤ self.old.newest }
        ensures low { self.new.newest < 2 ^ 24 }
        ensures same { (received : Received) → AreKeptOf self.old received → AreKeptOf self.new received }
    {
        let by = self.newest - self.newest % 65536 - 65536;
        self.window = lowered(&self.window, self.newest, by);
        self.newest -= by;
    }
}

// Returns a window with the numbers that `window` has among the last 4,096 up to `newest`, each lowered by `by`.
fn lowered(window: &RefWindow, newest: u64, by: u64) -> RefWindow
    requires high { by + 4096 ≤ newest }
    requires small { newest < 2 ^ 63 }
    ensures below { AllByRecursion (λ m. m ≤ newest - by) result }
    ensures held { (d : ℕ) → d < 4096 → has_below result (newest - by) d ≡ has_below window.now newest d }
{
    let mut lowered = RefWindow::new();
    for number in newest + 1 - SPAN..newest + 1 {
        if window.holds(number) {
            lowered.insert(number - by);
        }
    }
    lowered
}
