// The place of a packet in the stream.

ghost use Rattle.std.specs.Prelude.{◌≡◌, ◌<◌, ◌^◌, None, Some, if◌then◌else◌};
ghost use Rattle.stream_maker.specs.Packets.{is_upper, is_key_unit, packet_count, moment_of};
ghost use Rattle.stream_maker.specs.Bytes.{ends_frame};
ghost use Rattle.stream_maker.specs.Order.{ends_stream, tick_due};
ghost use Rattle.stream_maker.specs.Left.{place_after};

/// The distance from one key unit to the next, in units.
const KEY_UNITS: u32 = 50;

/// One packet of a frame.
#[derive(Clone, Copy, Debug, PartialEq, Eq)]
pub(crate) struct Place {
    /// The number of the packet's frame, counted from 0.
    pub(crate) frame: u32,
    /// The packet's index in its frame, counted from 0.
    pub(crate) part: u32,
    /// The packet's index in the stream, counted from 0.
    pub(crate) sequence: u32,
}

pub(crate) fn is_upper(frame: u32) -> bool
    ensures { result ≡ is_upper frame }
{
    frame % 2 == 1
}

pub(crate) fn is_key_unit(frame: u32) -> bool
    ensures { result ≡ is_key_unit frame }
{
    frame / 2 % KEY_UNITS == 0
}

// Returns the number of packets of a frame.
pub(crate) fn packet_count(frame: u32) -> u32
    ensures { result ≡ packet_count frame }
{
    if is_upper(frame) {
        2
    } else if is_key_unit(frame) {
        3
    } else {
        1
    }
}

// Returns the moment at which the packets of a frame's unit are sent, in milliseconds.
pub(crate) fn moment_of(frame: u32) -> u64
    ensures { result ≡ moment_of frame }
{
    33 * u64::from(frame / 2)
}

impl Place {
    pub(crate) const FIRST: Place = Place {
        frame: 0,
        part: 0,
        sequence: 0,
    };

    pub(crate) fn ends_frame(self) -> bool
        ensures { result ≡ ends_frame self }
    {
        self.part == packet_count(self.frame) - 1
    }

    // Returns the packet after this one.
    pub(crate) fn following(self) -> Place
        requires frame { self.frame < 2 ^ 31 }
        requires part { self.part < packet_count self.frame }
        requires sequence { self.sequence < 2 ^ 31 }
        ensures { result ≡ place_after self }
    {
        let sequence = self.sequence + 1;
        if self.ends_frame() {
            Place {
                frame: self.frame + 1,
                part: 0,
                sequence,
            }
        } else {
            Place {
                frame: self.frame,
                part: self.part + 1,
                sequence,
            }
        }
    }

    // Returns whether this is the last packet of a stream of `frames` frames.
    pub(crate) fn ends_stream(self, frames: u32) -> bool
        requires { 0 < frames }
        ensures { result ≡ ends_stream frames self }
    {
        self.frame == frames - 1 && self.ends_frame()
    }

    // Returns whether this is the last packet of its unit, so that a tick follows it.
    pub(crate) fn ends_unit(self, frames: u32) -> bool
        requires { 0 < frames }
        ensures { tick_due frames self ≡ (if result then Some (moment_of self.frame) else None) }
    {
        self.ends_frame() && (is_upper(self.frame) || self.frame == frames - 1)
    }
}
