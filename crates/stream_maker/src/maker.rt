// A stream that is made call by call.

ghost use Rattle.std.specs.Prelude.{◌≡◌, ◌≤◌};
ghost use Rattle.stream_maker.specs.Giving.{Gives};
ghost use Rattle.stream_maker.specs.Stream.{events};

use crate::counts::Counts;
use crate::due::Due;
use crate::event::Event;
use crate::place::Place;
use crate::state::State;
use rand_pcg::Lcg64Xsh32;
use sfu_base::PacketBuf;
use std::marker::Model;

/// A layered stream that is made call by call. Contracts see the events that are still to come, and the counts of what was made.
#[derive(Debug, Drop)]
pub struct Maker {
    state: State,
}

impl Model for Maker {
    ghost use Rattle.stream_maker.specs.Giving.{Making};

    ghost Value = { Making };

    ghost use Rattle.stream_maker.specs.Left.{left_of, IsSound};

    ghost view = { λ m. record { left = left_of m.state; counts = m.state.counts } };

    ghost invariant = { λ m. IsSound m.state };
}

impl Maker {
    /// Returns the stream of `frames` frames for the seed `start`. About `loss` percent of its packets are lost. Of the others, about `loss` percent
    /// are sent twice. Of the rest, about `loss` percent are held back, unless another packet is already held back. A held packet is sent after the
    /// next packet that isn't lost, or at the end of the stream.
    pub fn new(frames: u32, start: u64, loss: u8) -> Maker
        requires some_frames { 1 ≤ frames }
        requires few_frames { frames ≤ 1000000 }
        requires loss { loss ≤ 50 }
        ensures left { result.left ≡ events (record { frames = frames; start = start; loss = loss }) }
        ensures counts { result.counts ≡ record { frames = 0; packets = 0; lost = 0; repeated = 0; swapped = 0 } }
    {
        Maker {
            state: State {
                frames,
                loss,
                generator: Lcg64Xsh32::new(start, 0),
                next: Place::FIRST,
                held: None,
                due: Due::NOTHING,
                ended: false,
                counts: Counts::NONE,
            },
        }
    }

    /// Returns the next event. For a packet, replaces the contents of `out` with the packet's bytes. A tick and the end leave `out` unchanged.
    pub fn next_event(&mut self, out: &mut PacketBuf) -> Event
        ensures { Gives self.old self.new result out.old out.new }
    {
        self.state.make_packets();
        self.state.give(out)
    }

    /// Returns the counts of the packets made so far. The newest of these packets is the one in whose turn the last event came.
    pub fn counts(&self) -> Counts
        ensures { result ≡ self.now.counts }
    {
        self.state.counts
    }
}
