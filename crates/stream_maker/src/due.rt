// What is still to be sent in a packet's turn.

ghost use Rattle.std.specs.Prelude.{◌≡◌, ◌++◌, [], IfNone};
ghost use Rattle.std.specs.Option.{option_to_list};
ghost use Rattle.stream_maker.specs.Left.{behind, copies, held_after, due_places, due_tick, is_idle};

use crate::fate::Fate;
use crate::place::Place;

/// What is still to be sent in a turn: the packet, then another packet, then a tick.
#[derive(Clone, Copy, Debug)]
pub(crate) struct Due {
    /// The packet whose turn it is.
    pub(crate) place: Place,
    /// How many more times this packet is to be sent.
    pub(crate) copies: u8,
    /// The packet that is sent after `place`.
    pub(crate) behind: Option<Place>,
    /// Whether a tick follows, at the moment of the packet's unit.
    pub(crate) ticks: bool,
}

/// What a packet's turn sends, and which packet is held back after the turn.
#[derive(Clone, Copy, Debug)]
pub(crate) struct Turn {
    /// How many times the packet itself is sent in its turn.
    pub(crate) copies: u8,
    /// The packet that is sent last in the turn: usually the packet that was held back before the turn. In the stream's last turn, it may also be the
    /// packet that would otherwise stay held back.
    pub(crate) behind: Option<Place>,
    pub(crate) held: Option<Place>,
}

// Returns the turn of a packet with this fate; `ends_stream` says whether it is the last packet.
#[tactic(auto, unfolding(crate::specs::Left::behind, crate::specs::Left::held_after))]
pub(crate) fn turn_of(fate: Fate, held: Option<Place>, place: Place, ends_stream: bool) -> Turn
    ensures copies { result.copies ≡ copies fate held }
    ensures behind { result.behind ≡ behind fate held place ends_stream }
    ensures held { result.held ≡ held_after fate held place }
{
    let (copies, behind, held) = match fate {
        Fate::Lost => (0, if ends_stream { held } else { None }, held),
        Fate::Twice => (2, held, None),
        Fate::Once => (1, held, None),
        Fate::Held if held.is_some() => (1, held, None),
        Fate::Held => {
            let place = Some(place);
            (0, if ends_stream { place } else { None }, place)
        }
    };
    Turn {
        copies,
        behind,
        held,
    }
}

impl Due {
    pub(crate) const NOTHING: Due = Due {
        place: Place::FIRST,
        copies: 0,
        behind: None,
        ticks: false,
    };

    pub(crate) fn is_empty(&self) -> bool
        ensures { result ≡ is_idle self.now }
    {
        self.copies == 0 && self.behind.is_none() && !self.ticks
    }

    // Returns the next packet that is due, if there is one.
    pub(crate) fn take_packet(&mut self) -> Option<Place>
        ensures places { due_places self.old ≡ option_to_list result ++ due_places self.new }
        ensures empty { IfNone result (due_places self.new ≡ []) }
        ensures tick { due_tick self.new ≡ due_tick self.old }
    {
        if self.copies > 0 {
            self.copies -= 1;
            Some(self.place)
        } else if self.behind.is_some() {
            self.behind.take()
        } else {
            None
        }
    }
}
