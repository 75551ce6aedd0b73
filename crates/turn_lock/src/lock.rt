//! The lock, its seats, and the steps of a turn.
ghost use Rattle.std.specs.Prelude.{◌≡◌, ◌+◌, ◌%◌, ◌^◌, ◌<◌, ◌≤◌, [], ◌∷◌, ◌++◌, length, List, ℕ, Some, IfSome, IfNone, IfOk, IfErr};
ghost use mathlib.Core.List.{IsPrefix};
ghost use Rattle.turn_lock.specs.declared.history.Entry.{Entry};
ghost use Rattle.turn_lock.specs.declared.view.Stage.TheVariants.{Waiting, Holding};
ghost use Rattle.turn_lock.specs.History.{entry};
ghost use Rattle.turn_lock.specs.Known.{Known, Fits, MakesTurn, FindsWorn, opened, counted, another, together, AllJoinedIn};
ghost use Rattle.turn_lock.specs.Views.{Sound, seeing, serving};
ghost use Rattle.turn_lock.specs.Rule.{IsSame, Rests, Waits, IsWorn, Has};

use crate::held::{Held, Naming};
use crate::plays::{Both, Draw, Look, Next, Peek, Serve, Ticketed};
use crate::view::View;
use atomic_table::Table;
use crossbeam_utils::Backoff;
use crossbeam_utils::sync::EventCount;
use sfu_base::NoMemory;
use std::alloc::Global;
use std::array;
use std::marker::{Brand, Model};
use std::sync::Wait;
use thiserror::Error;

/// The index of the word that contains the next ticket. No thread has drawn this ticket yet.
const NEXT_TICKET: usize = 0;

/// The index of the word that contains the ticket being served.
const SERVED_TICKET: usize = 1;

/// The number of gates. A thread that waits for a ticket sleeps at gate `ticket % GATES`. The end of a turn wakes
/// all threads that sleep at the next ticket's gate. While at most `GATES` threads wait, each has its own gate.
const GATES: usize = 64;

/// A waiting thread may spin if its ticket exceeds the served ticket by at most this number. Any other waiting thread sleeps at once.
const NEAR: u64 = 1;

/// Every ticket is below this number.
const TICKET_LIMIT: u64 = 1 << 63;

/// Returns the index of the gate at which a thread with this ticket waits.
fn gate_of(ticket: u64) -> usize
    ensures { result ≡ ticket % GATES }
{
    (ticket % GATES as u64) as usize
}

/// The result of a turn.
#[derive(Debug, Drop)]
pub struct Turn<T> {
    /// The call's place in the history: the lock's first place plus the number of turns before this one.
    pub place: u64,
    pub reply: T,
}

/// All tickets of the lock are drawn, so no further turn is made. The value is unchanged.
#[derive(Clone, Copy, Debug, PartialEq, Eq, Error)]
#[error("all tickets of the lock are drawn")]
pub struct Worn;

/// A lock and the value behind it. Contracts see a `Turns` as the lock's identity.
#[derive(Drop)]
pub struct Turns<H: Held> {
    table: Table<Option<H>, View<H::Call>, u64, Ticketed<H>, Global>,
    gates: [EventCount; GATES],
}

impl<H: Held> Model for Turns<H> {
    ghost use Rattle.std.specs.Prelude.{◌≡◌};
    ghost use Rattle.atomic_table.specs.Seated.{TableId, table_id_coded};

    ghost Value = { TableId };

    ghost coded = { table_id_coded };

    ghost view = { λ t. t.table.shared.table_id };

    ghost invariant = { λ t. (t.table.shared.table_id.words ≡ 2) × (t.table.shared.table_id.slots ≡ 1) };
}

/// A thread's handle on a lock: with it the thread makes turns, one at a time. Contracts see the seat's number, its lock, and the place of the lock's
/// first entry. They see the prefix of the history that the seat has seen, and the seat's own entries. Each draw of a seat reads the number of the
/// next ticket. Contracts see the greatest number that a draw of this seat read. For the first seat, the draws of the seats joined into it count too.
/// For the first seat they also see how many seats were made and which were joined.
#[derive(Drop)]
pub struct Seat<H: Held> {
    inner: atomic_table::Seat<Option<H>, View<H::Call>>,
    number: u32,
    count: u32,
}

impl<H: Held> Model for Seat<H> {
    ghost use Rattle.std.specs.Prelude.{◌≡◌};
    ghost use Rattle.turn_lock.specs.Known.{Known};
    ghost use Rattle.turn_lock.specs.Views.{known, Sound};
    ghost use Rattle.turn_lock.specs.Rule.{Rests};

    ghost Value = { Known H.Call };

    ghost view = { λ s. known s.inner.table_id s.inner.me.0 };

    ghost invariant = { λ s. Rests s.inner × (s.number ≡ s.inner.me.0.number) × (s.count ≡ s.inner.me.0.count) × Sound s.inner.me.0 };
}

impl<H: Held> Seat<H> {
    /// A lemma: `Fits` holds for each seat between two calls on its lock. The function does nothing at run time.
    pub fn lemma_fits(&self)
        ensures { Fits self.now }
    {
        let _ = &self.number;
    }
}

impl<H: Held> Turns<H> {
    /// Puts a value that has served no call behind a new lock. Returns the lock and its first seat, which has
    /// number 0. The first turn will have the place `first`, at most 2^63. On `NoMemory` the value is dropped.
    pub fn new(alloc: Global, value: H, first: u64) -> Result<(Turns<H>, Seat<H>), NoMemory>
        requires first { first ≤ 2 ^ 63 }
        requires empty { H.stands value [] }
        ensures opened { IfOk result (λ t. t.1 ≡ opened t.0 first) }
        ensures fits { IfOk result (λ t. Fits t.1) }
    {
        let mut slots = Vec::new(alloc);
        let Ok(()) = slots.push(Some(value)) else {
            return Err(NoMemory);
        };
        let Ok((table, inner)) = Table::new(alloc, &[first, first], slots, &first) else {
            return Err(NoMemory);
        };
        let seat = Seat {
            inner,
            number: 0,
            count: 1,
        };
        let gates = array::from_fn(|_| EventCount::new());
        Ok((Turns { table, gates }, seat))
    }

    /// Makes a seat for one more thread. `seat` must be the first seat, and at most 1,023 seats may have been made,
    /// including the first. The new seat has the next number, and has seen the same prefix of the history as the first seat.
    pub fn split(&self, seat: &mut Seat<H>) -> Seat<H>
        requires lock { seat.old.lock ≡ self.now }
        requires first { seat.old.number ≡ 0 }
        requires capacity { seat.old.count < 1024 }
        ensures old { seat.new ≡ counted seat.old }
        ensures new { result ≡ another seat.old }
        ensures fits { Fits seat.new × Fits result }
    {
        let inner = self.table.shared.split_seat::<Next>(&mut seat.inner);
        let number = seat.count;
        seat.count += 1;
        Seat {
            inner,
            number,
            count: 0,
        }
    }

    /// Joins the seat `from` into the first seat `into`. Then `into` also records the number and the entries of `from`. Each of the two seats has
    /// seen a prefix of the history, and `into` keeps the longer prefix. The shorter prefix is a prefix of the longer one.
    pub fn join(&self, into: &mut Seat<H>, from: Seat<H>)
        requires lock { (into.old.lock ≡ self.now) × (from.lock ≡ self.now) }
        requires first { into.old.number ≡ 0 }
        requires other { 0 < from.number }
        ensures joined { into.new ≡ together into.old from }
        ensures seen { IsPrefix into.old.seen into.new.seen × IsPrefix from.seen into.new.seen }
        ensures fits { Fits into.new }
    {
        let Seat {
            inner,
            number: _,
            count: _,
        } = from;
        self.table.shared.join_seat::<Both>(&mut into.inner, inner);
        self.table
            .shared
            .load::<Peek>(&mut into.inner, SERVED_TICKET);
    }

    /// Draws a ticket, waits until all turns with earlier tickets are over, and serves the call on the
    /// value. Returns `Worn` only if all tickets are drawn. The value and the scratch are then unchanged.
    pub fn turn<W: Wait + Sync>(
        &self,
        rt: &W,
        seat: &mut Seat<H>,
        call: &H::Call,
        scratch: &mut H::Scratch,
    ) -> Result<Turn<H::Reply>, Worn>
        requires { seat.old.lock ≡ self.now }
        ensures ok { IfOk result (λ t. MakesTurn seat.old seat.new (entry seat.old.number call.now (H.starves t.reply)) t.place
            (λ h. H.gives h seat.old.number call.now t.reply scratch.new)) }
        ensures worn { IfErr result (λ _. FindsWorn seat.old seat.new × (scratch.new ≡ scratch.old)) }
        ensures fits { Fits seat.new }
    {
        let Some(ticket) = self.draw(rt, &mut seat.inner) else {
            return Err(Worn);
        };
        self.wait(rt, &mut seat.inner, ticket);
        let number = seat.number;
        let (place, reply) = self.serve(&mut seat.inner, ticket, number, call, scratch);
        Ok(Turn { place, reply })
    }

    /// Ends the lock and returns its value. `seat` must be the first seat, and each other seat must have been joined into it. The
    /// returned value represents all entries that `seat` has seen.
    pub fn close(self, seat: Seat<H>) -> H
        requires lock { seat.lock ≡ self }
        requires first { seat.number ≡ 0 }
        requires came { AllJoinedIn seat }
        ensures stands { H.stands result seat.seen }
        ensures found { seat.found ≤ seat.first + length seat.seen }
    {
        let Turns { table, gates: _ } = self;
        let Seat {
            inner,
            number: _,
            count: _,
        } = seat;
        let mut closed = table.close_with(inner);
        let Some(value) = closed.take(0) else {
            unreachable!()
        };
        closed.free();
        value
    }

    /// Draws the next ticket. Returns `None` if all are drawn.
    fn draw<W: Wait>(
        &self,
        rt: &W,
        inner: &mut atomic_table::Seat<Option<H>, View<H::Call>>,
    ) -> Option<u64>
        requires lock { inner.old.table_id ≡ self.now }
        requires rests { Rests inner.old }
        ensures some { IfSome result (λ t. Waits inner.old t inner.new) }
        ensures none { IfNone result (IsWorn inner.old inner.new) }
    {
        let mut ticket = self.table.shared.peek(NEXT_TICKET).min(TICKET_LIMIT - 1);
        for _ in rt.forever() {
            let found = self
                .table
                .shared
                .compare_exchange::<Draw>(inner, NEXT_TICKET, ticket, ticket + 1);
            if found == ticket {
                return Some(ticket);
            }
            if found >= TICKET_LIMIT {
                return None;
            }
            ticket = found;
        }
        unreachable!()
    }

    /// Waits until the ticket is served, and takes the value. The thread with the next ticket spins
    /// and yields for a short time, then sleeps at its gate. A thread further back sleeps at once.
    fn wait<W: Wait>(
        &self,
        rt: &W,
        inner: &mut atomic_table::Seat<Option<H>, View<H::Call>>,
        ticket: u64,
    )
        requires lock { inner.old.table_id ≡ self.now }
        requires waits { (inner.old.me.0.stage ≡ Waiting ticket) × (inner.old.me.1 ≡ []) }
        ensures same { IsSame inner.old inner.new }
        ensures seen { (h : List (Entry H.Call)) × IsPrefix inner.old.me.0.seen h × (inner.new.me.0 ≡ seeing inner.old.me.0 h (Holding ticket)) }
        ensures has { Has H.stands ticket inner.new }
        ensures sound { Sound inner.new.me.0 }
    {
        let backoff = Backoff::new();
        let mut far = false;
        for _ in rt.forever() {
            // The thread announces its wait before it reads the served ticket. So a turn
            // that ends after this read finds the announcement and wakes the thread.
            let key = if far || backoff.is_completed() {
                Some(self.gates[gate_of(ticket)].prepare_wait())
            } else {
                None
            };
            let serving = self.table.shared.load::<Look<H>>(inner, SERVED_TICKET);
            if serving == ticket {
                return;
            }
            far = ticket.wrapping_sub(serving) > NEAR;
            match key {
                Some(key) => key.wait(rt),
                None if far => {}
                None => backoff.snooze(),
            }
        }
        unreachable!()
    }

    /// Puts the value back and makes the next ticket the served one. This adds the call's entry to the history. Returns the entry's place.
    fn release<J: Naming<H::Call>>(
        &self,
        inner: &mut atomic_table::Seat<Option<H>, View<H::Call>>,
        call: &H::Call,
        reply: &H::Reply,
    ) -> u64
        requires lock { inner.old.table_id ≡ self.now }
        requires ready { (t : ℕ) × (y : H) × (inner.old.me.0.stage ≡ Holding t) × (inner.old.me.1 ≡ (0, Some y) ∷ [])
            × H.stands y (inner.old.me.0.seen ++ entry inner.old.me.0.number call.now (H.starves reply.now) ∷ []) }
        requires adds { J.adds ≡ entry inner.old.me.0.number call.now (H.starves reply.now) ∷ [] }
        ensures same { IsSame inner.old inner.new }
        ensures place { result ≡ inner.old.me.0.base + length inner.old.me.0.seen }
        ensures after { inner.new.me ≡ (serving inner.old.me.0 (entry inner.old.me.0.number call.now (H.starves reply.now) ∷ []), []) }
    {
        self.table
            .shared
            .fetch_add::<Serve<J>>(inner, SERVED_TICKET, 1)
    }

    /// Serves the call on the value that the seat has taken, puts the value back, and wakes the
    /// threads that sleep at the next ticket's gate. Returns the call's place and its reply.
    fn serve(
        &self,
        inner: &mut atomic_table::Seat<Option<H>, View<H::Call>>,
        ticket: u64,
        number: u32,
        call: &H::Call,
        scratch: &mut H::Scratch,
    ) -> (u64, H::Reply)
        requires lock { inner.old.table_id ≡ self.now }
        requires has { Has H.stands ticket inner.old }
        requires number { number ≡ inner.old.me.0.number }
        ensures same { IsSame inner.old inner.new }
        ensures place { result.0 ≡ inner.old.me.0.base + length inner.old.me.0.seen }
        ensures after { inner.new.me ≡ (serving inner.old.me.0 (entry number call.now (H.starves result.1) ∷ []), []) }
        ensures gives { H.gives inner.old.me.0.seen number call.now result.1 scratch.new }
    {
        let Some(mut value) = self.table.shared.exchange(inner, 0, None) else {
            unreachable!()
        };
        let reply = value.serve(number, call, scratch);
        let _none = self.table.shared.exchange(inner, 0, Some(value));
        let place = self.release::<Brand>(inner, call, &reply);
        self.gates[gate_of(place.wrapping_add(1))].notify_all();
        (place, reply)
    }
}
