// The heads of the slots: the packet that each slot shares, if any, the location of its copy, and its marker.
ghost use Rattle.std.specs.Prelude.{◌≡◌, ◌<◌, ◌≤◌, ◌∷◌, ◌++◌, All, IfOk, None, Some, [], drop, length, slice_get};
ghost use Rattle.std.specs.Option.{option_copied};
ghost use Rattle.out_ring.specs.Slots.{evict, shared_at};

use crate::pages::Location;
use crate::places::{SLOTS, next_place, place_from};
use crate::store::{PacketStore, SharedPacket};
use sfu_base::NoMemory;
use std::alloc::Global;
use std::marker::Model;
use std::mem;

/// What a slot has: its shared packet or, if it shares none, the location of its own copy. It also has the marker with which its packet is sent.
#[derive(Debug, Drop)]
pub struct Head {
    pub shared: Option<SharedPacket>,
    pub location: Location,
    pub marker: bool,
}

/// The heads of 1,536 slots. Contracts see them as a list, the oldest first. A head that hasn't been added yet shares nothing, and its memory isn't touched.
#[derive(Debug, Drop)]
pub struct Heads {
    // the heads added so far, up to 1,536
    ring: Vec<Head>,
    // the index of the oldest head; the others follow in order and wrap around after 1,536. An index after the last item belongs to a head that
    // hasn't been added yet.
    oldest: usize,
}

impl Model for Heads {
    ghost use Rattle.std.specs.Prelude.{List};
    ghost use Rattle.out_ring.specs.declared.heads.Head.{Head};

    ghost Value = { List Head };

    ghost use Rattle.out_ring.specs.Held.{AreHeads, heads_of};

    ghost view = { heads_of };

    ghost invariant = { AreHeads };
}

impl Heads {
    /// Makes 1,536 heads without shared packets. Returns `NoMemory` if memory runs out. No later call allocates memory.
    pub fn new(alloc: Global) -> Result<Heads, NoMemory>
        ensures size { IfOk result (λ heads. length heads ≡ 1536) }
        ensures unshared { IfOk result (λ heads. All (λ head. head.shared ≡ None) heads) }
    {
        let Ok(ring) = Vec::with_capacity(alloc, SLOTS) else {
            return Err(NoMemory);
        };
        Ok(Heads { ring, oldest: 0 })
    }

    /// The shared packet, if there is one, the location and the marker of the head at this place. The oldest head has place 0.
    #[inline(always)]
    pub fn get(&self, place: usize) -> (Option<&SharedPacket>, Location, bool)
        requires { place < 1536 }
        ensures { slice_get self.now place
            ≡ Some (record { shared = option_copied result.0; location = result.1; marker = result.2 }) }
    {
        match self.ring.get(place_from(self.oldest, place)) {
            Some(head) => (head.shared.as_ref(), head.location, head.marker),
            None => (
                None,
                Location {
                    at: 0,
                    size: 0,
                    page: 0,
                },
                false,
            ),
        }
    }

    /// Removes and returns the shared packet of the head at this place, or returns `None` if the head has none. The oldest head has place 0.
    #[inline(always)]
    pub fn evict(&mut self, place: usize) -> Option<SharedPacket>
        requires { place < 1536 }
        ensures shared { result ≡ shared_at self.old place }
        ensures heads { self.new ≡ evict self.old place }
    {
        let index = place_from(self.oldest, place);
        if index >= self.ring.len() {
            return None;
        }
        self.ring[index].shared.take()
    }

    /// Drops the oldest head, and adds a head with these fields as the newest. Returns the packet that the oldest head shared, if it shared one.
    #[inline(always)]
    pub fn put_last(
        &mut self,
        shared: Option<SharedPacket>,
        location: Location,
        marker: bool,
    ) -> Option<SharedPacket>
        ensures shared { result ≡ shared_at self.old 0 }
        ensures heads { self.new ≡ drop 1 self.old ++ record { shared = shared; location = location; marker = marker } ∷ [] }
    {
        let head = Head {
            shared,
            location,
            marker,
        };
        let index = self.oldest;
        self.oldest = next_place(index);
        if index >= self.ring.len() {
            self.ring.push_reserved(head);
            return None;
        }
        let Head {
            shared: before,
            location: _,
            marker: _,
        } = mem::replace(&mut self.ring[index], head);
        before
    }

    /// Releases all shared packets to the store.
    pub fn release(self, store: &mut PacketStore)
        ensures all { store.new.all ≡ store.old.all }
        ensures free { store.old.free ≤ store.new.free }
    {
        let Heads { mut ring, .. } = self;
        while let Some(head) = ring.pop() {
            let Head {
                shared,
                location: _,
                marker: _,
            } = head;
            if let Some(packet) = shared {
                store.release(packet);
            }
        }
    }
}
