// The packets that are still buffered when the next one arrives, in places that are reused.
ghost use Rattle.packet_slot.specs.declared.TheConstants.{PACKET_BYTES};
ghost use Rattle.std.specs.Prelude.{◌≡◌, ◌≢◌, ◌<◌, ◌≤◌, ◌%◌, ℕ, IfNone, IfOk, None, length, replicate};
ghost use Rattle.std.specs.Option.{option_map};
ghost use Rattle.std.specs.Vec.{vec_capacity};
ghost use Rattle.reorder_window.specs.Slots.{IsChosen, IsPooled, pool_at, with_kept};
ghost use Rattle.reorder_window.specs.Steps.{Gives};

use crate::ring::SPAN;
use crate::slot::Place;
use packet_slot::PacketSlot;
use sfu_base::NoMemory;
use std::alloc::Global;

/// A pool of packets. No two of them have numbers that are equal modulo [`SPAN`]. The packet with number n is in `places`, at the index `index[n % SPAN]`.
/// Capacity is reserved for `SPAN` places. A place is made only when no existing place is free. So the number of places never exceeds the largest number
/// of packets that were in the pool at the same time.
#[derive(Debug, Drop)]
pub struct Pool {
    pub index: Vec<Option<u16>>,
    pub places: Vec<Place>,
    // the indices of the places without a packet
    pub free: Vec<u16>,
    ghost pooled: { IsPooled index.items places.items free.items },
    ghost reserved: { 1024 ≤ vec_capacity places },
    ghost reserved_free: { 1024 ≤ vec_capacity free },
}

impl Pool {
    /// An empty pool. Returns `NoMemory` if memory runs out.
    pub fn new(alloc: Global) -> Result<Pool, NoMemory>
        ensures { IfOk result (λ pool. (n : ℕ) → pool_at pool.index.items pool.places.items n ≡ None) }
    {
        let index = new_index(alloc)?;
        let places = Vec::with_capacity(alloc, SPAN as usize).map_err(|_| NoMemory)?;
        let free = Vec::with_capacity(alloc, SPAN as usize).map_err(|_| NoMemory)?;
        Ok(Pool {
            index,
            places,
            free,
        })
    }

    /// Returns the moment of the packet with this number, or `None` if the pool doesn't have this packet.
    pub fn moment(&self, number: u64) -> Option<u64>
        ensures { result ≡ option_map (λ kept. kept.moment) (pool_at self.now.index.items self.now.places.items number) }
    {
        let place = self.index[(number % SPAN) as usize]?;
        let held = &self.places[place as usize];
        if held.holds(number) {
            Some(held.moment)
        } else {
            None
        }
    }

    /// Stores a packet. No packet in the pool may have a number that equals `number` modulo `SPAN`.
    pub fn put(&mut self, number: u64, moment: u64, bytes: &[u8])
        requires length { length bytes.now ≤ PACKET_BYTES }
        requires vacant { (n : ℕ) → n % 1024 ≡ number % 1024 → pool_at self.old.index.items self.old.places.items n ≡ None }
        ensures { (n : ℕ) → pool_at self.new.index.items self.new.places.items n
            ≡ with_kept number (record { moment = moment; bytes = bytes.now }) (pool_at self.old.index.items self.old.places.items) n }
    {
        let place = choose(&mut self.places, &mut self.free);
        self.places[place as usize].keep(number, moment, bytes);
        self.index[(number % SPAN) as usize] = Some(place);
    }

    /// Removes the packet with this number from the pool, copies it to `packet`, and returns its moment. If the pool doesn't have the packet,
    /// returns `None` and changes nothing. Packets with other numbers don't change.
    pub fn take(&mut self, number: u64, packet: &mut PacketSlot) -> Option<u64>
        ensures given { Gives (pool_at self.old.index.items self.old.places.items number) result packet.old packet.new }
        ensures none { IfNone result (self.new ≡ self.old) }
        ensures gone { pool_at self.new.index.items self.new.places.items number ≡ None }
        ensures others { (n : ℕ) → n ≢ number
            → pool_at self.new.index.items self.new.places.items n ≡ pool_at self.old.index.items self.old.places.items n }
    {
        let at = (number % SPAN) as usize;
        let place = self.index[at]?;
        if !self.places[place as usize].holds(number) {
            return None;
        }
        let moment = self.places[place as usize].give(packet);
        self.index[at] = None;
        self.free.push_reserved(place);
        Some(moment)
    }
}

// An index that points to no place.
fn new_index(alloc: Global) -> Result<Vec<Option<u16>>, NoMemory>
    ensures { IfOk result (λ index. index.items ≡ replicate 1024 None) }
{
    let mut index = Vec::new(alloc);
    match index.resize(SPAN as usize, None) {
        Ok(()) => Ok(index),
        Err(_) => Err(NoMemory),
    }
}

// Returns the index of a free place, which is then in use. Of the free places, the one that was used last is chosen, since its memory is probably
// cached. If none is free, makes a place.
fn choose(places: &mut Vec<Place>, free: &mut Vec<u16>) -> u16
    requires few { length free.old.items ≡ 0 → length places.old.items < 1024 }
    requires reserved { 1024 ≤ vec_capacity places.old }
    ensures chosen { IsChosen places.old.items free.old.items places.new.items free.new.items result }
    ensures reserved { 1024 ≤ vec_capacity places.new }
    ensures reserved_free { vec_capacity free.new ≡ vec_capacity free.old }
{
    if let Some(place) = free.pop() {
        return place;
    }
    let made = places.len() as u16;
    places.push_reserved(Place::new());
    made
}
