// The window over a track's packets.
ghost use Rattle.std.specs.Prelude.{◌≡◌, ◌<◌, ◌≤◌, ◌+◌, ◌∷◌, ◌^◌, [], IfOk, IsNone, List, None, ℕ, ◌↔◌, max, OnErr, OnOk, drop, length, slice_get};
ghost use Rattle.std.specs.Option.{option_map};
ghost use Rattle.reorder_window.specs.Due.{due_of};
ghost use Rattle.reorder_window.specs.Events.{Event, Arrives, Ticks};
ghost use Rattle.reorder_window.specs.Missing.{missing_sequences};
ghost use Rattle.reorder_window.specs.Order.{added, after, before_all, judged_sequence, number_of};
ghost use Rattle.reorder_window.specs.Kept.{waiting_from};
ghost use Rattle.reorder_window.specs.Held.{held_at};
ghost use Rattle.reorder_window.specs.Steps.{in_range, newest_below};
ghost use Rattle.reorder_window.specs.Window.{IsAfter, filled, item_of, refusal};

use crate::arrival::{Arrival, Item};
use crate::ring::{Ring, SPAN};
use packet_slot::PacketSlot;
use sfu_base::{NoMemory, PacketBuf, SeqList};
use std::alloc::Global;
use std::marker::Model;
use wrap_number::place;

/// All accepted unwrapped sequence numbers are below this number.
pub const NUMBER_END: u64 = 1 << 46;

// How many 16-bit sequence numbers there are.
const SEQUENCE_NUMBERS: u64 = 65_536;

/// The reorder window of one track. Contracts see its hold time, its order, and the items that are still to be fetched.
#[derive(Debug, Drop)]
pub struct Window {
    ring: Ring,
    hold: u32,
    moment: u64,
    // one above the newest accepted number, or 0 before the first packet
    end: u64,
    next: u64,
    // the first number that wasn't fetched yet
    given: u64,
    // the buffer from which `next_item` copies a packet
    copied: Box<PacketSlot>,
}

impl Model for Window {
    ghost use Rattle.reorder_window.specs.Window.{Seen};

    ghost Value = { Seen };

    ghost use Rattle.reorder_window.specs.Kept.{IsKept, seen};

    ghost view = { seen };

    ghost invariant = { IsKept };
}

impl Window {
    /// A window before its first packet. The window buffers a packet behind a gap for `hold` milliseconds. Returns `NoMemory` if memory runs
    /// out. No later call allocates memory.
    pub fn new(alloc: Global, hold: u32) -> Result<Window, NoMemory>
        ensures { IfOk result (λ window. window ≡ record { hold = hold; order = before_all; waiting = [] }) }
    {
        let ring = Ring::new(alloc)?;
        let copied = Box::new(alloc, PacketSlot::new()).map_err(|_| NoMemory)?;
        Ok(Window {
            ring,
            hold,
            moment: 0,
            end: 0,
            next: 0,
            given: 0,
            copied,
        })
    }

    /// Accepts or refuses a packet of at most 1,500 bytes that arrives at `moment`, in milliseconds. All
    /// waiting items must be fetched before this call. The bytes are copied. A refusal changes nothing.
    pub fn arrive(&mut self, seq: u16, moment: u64, bytes: &[u8]) -> Result<(), Arrival>
        requires length { length bytes.now ≤ 1500 }
        requires fetched { self.old.waiting ≡ [] }
        ensures refusal { refusal result ≡ refusal (judged_sequence self.old.order seq) }
        ensures unchanged { OnErr result (self.new ≡ self.old) }
        ensures order { self.new.order ≡ after self.old.hold self.old.order (Arrives seq moment bytes.now) }
        ensures items { self.new.waiting ≡ added self.old.hold self.old.order (Arrives seq moment bytes.now) }
        ensures hold { self.new.hold ≡ self.old.hold }
        ensures stands { (past : List Event) → IsAfter self.old past → IsAfter self.new (Arrives seq moment bytes.now ∷ past) }
    {
        let number = number_in_range(self.end, self.next, seq)?;
        if self.ring.holds(number) {
            return Err(Arrival::Repeat);
        }
        let first = if self.end == 0 { number } else { self.next };
        let lowest = first.max(number.saturating_sub(SPAN - 1));
        let now = self.moment.max(moment);
        self.ring.keep(number, now, bytes);
        self.moment = now;
        self.end = self.end.max(number + 1);
        self.given = first;
        self.next = self.ring.run_end(lowest, self.end);
        Ok(())
    }

    /// Advances the window's time to `moment`, in milliseconds, if that is later. If the packet after the lowest gap has been buffered for the hold time,
    /// the window gives up this gap. The same rule then applies to the next gap, and so on. All waiting items must be fetched before this call.
    pub fn tick(&mut self, moment: u64)
        requires { self.old.waiting ≡ [] }
        ensures order { self.new.order ≡ after self.old.hold self.old.order (Ticks moment) }
        ensures items { self.new.waiting ≡ added self.old.hold self.old.order (Ticks moment) }
        ensures hold { self.new.hold ≡ self.old.hold }
        ensures stands { (past : List Event) → IsAfter self.old past → IsAfter self.new (Ticks moment ∷ past) }
    {
        self.moment = self.moment.max(moment);
        self.given = self.next;
        self.next = self
            .ring
            .due_end(self.next, self.end, self.moment, self.hold);
    }

    /// Returns the next item that waits to be fetched, or `None` if no item waits. If the item is a packet, its bytes are in `slot` afterwards. For the
    /// packet that arrived last, the buffers are swapped. For any other packet, the bytes are copied. If the item is a gap, `slot` is unchanged.
    pub fn next_slot(&mut self, slot: &mut Box<PacketSlot>) -> Option<Item>
        ensures none { IsNone result ↔ (self.old.waiting ≡ []) }
        ensures item { result ≡ option_map item_of (slice_get self.old.waiting 0) }
        ensures bytes { slot.new.value ≡ filled (slice_get self.old.waiting 0) slot.old.value }
        ensures rest { self.new ≡ record self.old { waiting = drop 1 self.old.waiting } }
    {
        fetch(&mut self.ring, &mut self.given, self.next, slot)
    }

    /// Returns the next item that waits to be fetched, as [`Window::next_slot`] does. If the item is a packet, its bytes replace the contents
    /// of `buf`; otherwise `buf` is unchanged.
    pub fn next_item(&mut self, buf: &mut PacketBuf) -> Option<Item>
        ensures none { IsNone result ↔ (self.old.waiting ≡ []) }
        ensures length { length buf.new ≤ max (length buf.old) 1500 }
        ensures item { result ≡ option_map item_of (slice_get self.old.waiting 0) }
        ensures bytes { buf.new ≡ filled (slice_get self.old.waiting 0) buf.old }
        ensures rest { self.new ≡ record self.old { waiting = drop 1 self.old.waiting } }
    {
        let item = fetch(&mut self.ring, &mut self.given, self.next, &mut self.copied)?;
        if let Item::Got { .. } = item {
            buf.fill(self.copied.bytes());
        }
        Some(item)
    }

    /// Returns the earliest moment, in milliseconds, at which a tick gives up a gap. It is the sum of the hold time and the moment of the buffered packet
    /// with the lowest number. Returns `None` if no packet is buffered, or if this sum is 2^64 or more.
    pub fn due(&self) -> Option<u64>
        ensures { result ≡ due_of self.now.hold self.now.order }
    {
        let lowest = self.ring.lowest_moment(self.next, self.end)?;
        lowest.checked_add(u64::from(self.hold))
    }

    /// Replaces the contents of `out` with the missing sequence numbers, in ascending order of their unwrapped numbers. A number between `next` and the
    /// highest buffered number, `next` included, is missing if its packet isn't buffered.
    pub fn missing(&self, out: &mut SeqList)
        ensures { out.new ≡ missing_sequences self.now.order }
    {
        out.clear();
        for n in self.next..self.end {
            if !self.ring.holds(n) {
                out.push((n % SEQUENCE_NUMBERS) as u16);
            }
        }
    }
}

// Returns the first item in `given..next`, and moves `given` past it. If the item is a packet, its bytes are in `slot` afterwards.
#[inline(always)]
fn fetch(ring: &mut Ring, given: &mut u64, next: u64, slot: &mut Box<PacketSlot>) -> Option<Item>
    requires within { given.old ≤ next }
    requires below { (n : ℕ) → n < given.old → held_at ring.old.pool ring.old.latest n ≡ None }
    requires near { (n : ℕ) → given.old + SPAN < n → n < next → held_at ring.old.pool ring.old.latest n ≡ None }
    ensures none { IsNone result ↔ (waiting_from ring.old given.old next ≡ []) }
    ensures item { result ≡ option_map item_of (slice_get (waiting_from ring.old given.old next) 0) }
    ensures bytes { slot.new.value ≡ filled (slice_get (waiting_from ring.old given.old next) 0) slot.old.value }
    ensures rest { waiting_from ring.new given.new next ≡ drop 1 (waiting_from ring.old given.old next) }
    ensures below { (n : ℕ) → n < given.new → held_at ring.new.pool ring.new.latest n ≡ None }
    ensures held { (n : ℕ) → next ≤ n → held_at ring.new.pool ring.new.latest n ≡ held_at ring.old.pool ring.old.latest n }
    ensures within { given.new ≤ next }
    ensures near { (n : ℕ) → given.new + SPAN < n → n < next → held_at ring.new.pool ring.new.latest n ≡ None }
{
    let from = *given;
    if from == next {
        return None;
    }
    if let Some(moment) = ring.exchange(from, slot) {
        *given = from + 1;
        return Some(Item::Got {
            number: from,
            moment,
        });
    }
    let end = ring.gap_end(from, next);
    *given = end;
    Some(Item::Gone { from, to: end - 1 })
}

/// Unwraps the sequence number of an arriving packet. Returns `Spent` if the unwrapped number is 2^46 or more, and `Late` if it is below `next`. `end` is
/// one above the newest accepted number, or 0 before the first packet.
pub fn number_in_range(end: u64, next: u64, seq: u16) -> Result<u64, Arrival>
    requires bounded { end ≤ NUMBER_END }
    requires within { next ≤ end }
    ensures { result ≡ in_range next (number_of (newest_below end) seq) }
{
    let number = if end == 0 {
        i64::from(seq)
    } else {
        place((end - 1) as i64, seq)
    };
    if number >= NUMBER_END as i64 {
        Err(Arrival::Spent)
    } else if number < next as i64 {
        Err(Arrival::Late { next })
    } else {
        Ok(number as u64)
    }
}
