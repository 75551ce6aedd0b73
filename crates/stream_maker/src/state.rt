// The state of a stream that is being made.

ghost use Rattle.std.specs.Prelude.{◌≡◌, ◌<◌, ℕ, List, [], None, true};
ghost use Rattle.stream_maker.specs.Left.{left_of, making_of, IsSound, is_idle, due_places, due_tick, packets_bound};
ghost use Rattle.stream_maker.specs.Giving.{Gives};

use crate::counts::Counts;
use crate::due::{Due, turn_of};
use crate::event::Event;
use crate::fate::{draw, fate_of};
use crate::packet;
use crate::place::{Place, moment_of};
use rand_pcg::Lcg64Xsh32;
use sfu_base::PacketBuf;

// The time from the last unit to the last tick, in milliseconds.
const LAST_WAIT: u64 = 1000;

/// The parts of a maker.
#[derive(Debug, Drop)]
pub(crate) struct State {
    pub(crate) frames: u32,
    pub(crate) loss: u8,
    pub(crate) generator: Lcg64Xsh32,
    /// The packet that is made next. Once all packets are made, this is the first packet of frame number `frames`. That frame is never made.
    pub(crate) next: Place,
    /// The packet that is held back.
    pub(crate) held: Option<Place>,
    pub(crate) due: Due,
    /// Whether the last tick was returned.
    pub(crate) ended: bool,
    pub(crate) counts: Counts,
}

impl State {
    // Makes the next packet. The packets that are sent in its turn become due.
    fn make_packet(&mut self)
        requires sound { IsSound self.old }
        requires nothing_due { is_idle self.old.due ≡ true }
        requires more { self.old.next.frame < self.old.frames }
        ensures sound { IsSound self.new }
        ensures left { left_of self.new ≡ left_of self.old }
        ensures fewer { packets_bound self.new < packets_bound self.old }
        ensures ended { self.new.ended ≡ self.old.ended }
    {
        let place = self.next;
        let fate = fate_of(self.loss, draw(&mut self.generator));
        self.counts.add(fate, self.held, place);
        let turn = turn_of(fate, self.held, place, place.ends_stream(self.frames));
        self.due = Due {
            place,
            copies: turn.copies,
            behind: turn.behind,
            ticks: place.ends_unit(self.frames),
        };
        self.held = turn.held;
        self.next = place.following();
    }

    // Makes packets until something is due, or until all packets are made.
    pub(crate) fn make_packets(&mut self)
        requires sound { IsSound self.old }
        ensures sound { IsSound self.new }
        ensures left { left_of self.new ≡ left_of self.old }
        ensures ready { due_places self.new.due ≡ [] → due_tick self.new.due ≡ None → self.new.next.frame ≡ self.new.frames }
        ensures ended { self.old.ended ≡ true → self.new ≡ self.old }
    {
        while self.due.is_empty() && self.next.frame < self.frames {
            self.make_packet();
        }
    }

    // Returns what is due; if nothing is due, the last tick; after that tick, the end.
    pub(crate) fn give(&mut self, out: &mut PacketBuf) -> Event
        requires sound { IsSound self.old }
        requires ready { due_places self.old.due ≡ [] → due_tick self.old.due ≡ None → self.old.next.frame ≡ self.old.frames }
        ensures sound { IsSound self.new }
        ensures gives { Gives (making_of self.old) (making_of self.new) result out.old out.new }
    {
        match self.due.take_packet() {
            Some(place) => {
                packet::write(place, out);
                Event::Packet {
                    moment: moment_of(place.frame),
                }
            }
            None => self.give_tick(),
        }
    }

    // Returns the tick that is due; if none is due, the last tick; after that tick, the end.
    fn give_tick(&mut self) -> Event
        requires sound { IsSound self.old }
        requires no_packet { due_places self.old.due ≡ [] }
        requires ready { due_tick self.old.due ≡ None → self.old.next.frame ≡ self.old.frames }
        ensures sound { IsSound self.new }
        ensures gives { (out : List ℕ) → Gives (making_of self.old) (making_of self.new) result out out }
    {
        if self.due.ticks {
            self.due.ticks = false;
            Event::Tick {
                moment: moment_of(self.due.place.frame),
            }
        } else {
            self.give_last()
        }
    }

    // Returns the last tick, or the end if that tick was returned before.
    fn give_last(&mut self) -> Event
        requires sound { IsSound self.old }
        requires no_packet { due_places self.old.due ≡ [] }
        requires no_tick { due_tick self.old.due ≡ None }
        requires all_made { self.old.next.frame ≡ self.old.frames }
        ensures sound { IsSound self.new }
        ensures gives { (out : List ℕ) → Gives (making_of self.old) (making_of self.new) result out out }
    {
        if self.ended {
            return Event::End;
        }
        self.ended = true;
        Event::Tick {
            moment: moment_of(self.frames - 1) + LAST_WAIT,
        }
    }
}
