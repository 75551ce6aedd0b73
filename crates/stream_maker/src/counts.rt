// Counts of the packets and frames made so far.

ghost use Rattle.std.specs.Prelude.{◌≡◌, ◌≤◌, ◌<◌, ◌^◌};
ghost use Rattle.stream_maker.specs.Left.{counts_after};

use crate::fate::Fate;
use crate::place::Place;

/// Counts for the part of a stream that was made so far. A packet counts as made when its turn comes, whether it is lost or not.
#[derive(Clone, Copy, Debug, PartialEq, Eq)]
pub struct Counts {
    /// How many frames have at least one packet that was made.
    pub frames: u32,
    /// How many packets were made.
    pub packets: u32,
    /// How many packets are lost: they aren't sent.
    pub lost: u32,
    /// How many packets are sent twice.
    pub repeated: u32,
    /// How many packets are held back. Each is sent after the next packet that isn't lost, or at the end of the stream.
    pub swapped: u32,
}

impl Counts {
    pub(crate) const NONE: Counts = Counts {
        frames: 0,
        packets: 0,
        lost: 0,
        repeated: 0,
        swapped: 0,
    };

    // Counts one more packet; `held` is the packet that was held back before it.
    #[tactic(auto, unfolding(crate::specs::Left::counts_after))]
    pub(crate) fn add(&mut self, fate: Fate, held: Option<Place>, place: Place)
        requires frames { self.old.frames < 2 ^ 31 }
        requires packets { self.old.packets < 2 ^ 31 }
        requires lost { self.old.lost < 2 ^ 31 }
        requires repeated { self.old.repeated < 2 ^ 31 }
        requires swapped { self.old.swapped < 2 ^ 31 }
        ensures { self.new ≡ counts_after fate held place self.old }
    {
        self.frames += u32::from(place.part == 0);
        self.packets += 1;
        self.lost += u32::from(fate == Fate::Lost);
        self.repeated += u32::from(fate == Fate::Twice);
        self.swapped += u32::from(fate == Fate::Held && held.is_none());
    }
}
