// The packets of the current frame that subscribers share.
ghost use Rattle.std.specs.Prelude.{◌≡◌, ◌<◌, ◌≤◌, ◌+◌, ◌-◌, ◌*◌, [], IfOk, IfSome, None, OnOk, Some, length, max, min, true};
ghost use Rattle.std.specs.Option.{option_copied};
ghost use Rattle.std.specs.Vec.{vec_capacity};
ghost use Rattle.std.proofs.Props.{props};
ghost use Rattle.rtp_packet.specs.Faults.{first_fault};
ghost use Rattle.out_ring.specs.Ring.{pushed};
ghost use Rattle.packet_format.specs.Remasked.{remasked_bytes};
ghost use Rattle.frame_cache.specs.Capacity.{capacity_for};
ghost use Rattle.frame_cache.specs.Sharing.{IsShared, MayShare, CarriesMask};

use dd_structure::Structure;
use out_ring::{OutRing, PacketStore, SharedPacket};
use packet_format::Remasker;
use sfu_base::{NoMemory, PacketBuf};
use std::alloc::Global;

/// At most this many packets of a frame are shared. A subscriber's queue has the same capacity, so a frame with more packets is never forwarded.
const MOST_SHARED: usize = 512;

/// Each subscriber of a track from the second to the 16th adds this many buffers to the store. A join touches the memory of the buffers that it adds, so
/// the number is small: making them takes about 0.1 ms. With ten or more subscribers, all the 1,024 packets that subscribers with the same wish keep can be
/// shared.
const EARLY: usize = 116;

/// Each subscriber of a track from the second to the 256th adds this many further buffers, for packets that are sent only to that subscriber.
const OWN: usize = 12;

/// Caches those packets of a track's current frame that are sent to subscribers. A shared packet is stored once for all subscribers that get it. The cache
/// also has a copy of the frame's first packet with another mask of active decode targets. There is only one such copy, for the mask that was requested
/// last, because most subscribers of a frame get the same mask. The cache doesn't change what is sent. The rewritten copy is in `packet`, which is
/// overwritten in place and never cleared.
#[derive(Drop)]
pub struct FrameCache {
    pub store: PacketStore,
    // the packets of the frame that are shared so far: the first ones, in order
    pub shared: Vec<SharedPacket>,
    pub mask: Option<u32>,
    pub packet: PacketBuf,
    // `packet`, once it is shared
    remasked: Option<SharedPacket>,
    // whether a packet of the frame found no free buffer; further packets of the frame are then copied
    full: bool,
    remasker: Remasker,
    ghost remasked_is: { IfSome remasked (λ shared. shared ≡ packet) } by { Prim.hlevel props },
}

impl FrameCache {
    /// Returns an empty cache, whose store has no buffers. Allocates the list of shared packets, with capacity for 512. Returns `NoMemory` if memory runs
    /// out.
    pub fn new(alloc: Global) -> Result<FrameCache, NoMemory>
        ensures mask { IfOk result (λ cache. cache.mask ≡ None) }
        ensures shared { IfOk result (λ cache. cache.shared.items ≡ []) }
        ensures store { IfOk result (λ cache. cache.store ≡ record { all = 0; free = 0 }) }
        ensures capacity { IfOk result (λ cache. 512 ≤ vec_capacity cache.shared) }
    {
        let Ok(shared) = Vec::with_capacity(alloc, MOST_SHARED) else {
            return Err(NoMemory);
        };
        Ok(FrameCache {
            store: PacketStore::new(alloc),
            shared,
            mask: None,
            packet: PacketBuf::new(),
            remasked: None,
            full: false,
            remasker: Remasker::new(),
        })
    }

    /// Makes sure that the store has enough buffers for this many subscribers: 128 for each from the second to the 16th, and 12 for each further one. Allocates
    /// only the missing buffers. While no buffer is free, packets are copied into the rings. Returns `NoMemory` if memory runs out. Some buffers may have been added
    /// before that.
    pub fn reserve(&mut self, alloc: Global, subscribers: usize) -> Result<(), NoMemory>
        ensures free { self.old.store.free ≤ self.new.store.free }
        ensures grown { self.new.store.free + self.old.store.all ≡ self.old.store.free + self.new.store.all }
        ensures enough { OnOk result (capacity_for subscribers ≤ self.new.store.all) }
        ensures most { self.new.store.all ≤ max self.old.store.all (capacity_for subscribers) }
    {
        self.store.grow(alloc, capacity_for(subscribers))
    }

    /// Releases the packets of a ring that is no longer used. `left` is the number of remaining subscribers. Free buffers that they don't need are
    /// deallocated.
    pub fn release(&mut self, ring: OutRing, left: usize)
        ensures all { self.new.store.all ≤ self.old.store.all }
        ensures kept { capacity_for left ≤ self.old.store.all → capacity_for left ≤ self.new.store.all }
        ensures freed { self.new.store.all ≤ self.old.store.all - min self.old.store.free (self.old.store.all - capacity_for left) }
    {
        ring.release(&mut self.store);
        self.store.shrink(capacity_for(left));
    }

    /// Empties the cache. This is done before another frame begins.
    pub fn forget(&mut self)
        ensures mask { self.new.mask ≡ None }
        ensures shared { self.new.shared.items ≡ [] }
        ensures all { self.new.store.all ≡ self.old.store.all }
    {
        self.mask = None;
        self.full = false;
        if let Some(packet) = self.remasked.take() {
            self.store.release(packet);
        }
        while let Some(packet) = self.shared.pop() {
            self.store.release(packet);
        }
    }

    /// Shares the frame's packet with index `place`, if all packets of the frame before this one are shared and a buffer is free. Out of line: the function
    /// is called once per packet.
    #[inline(never)]
    pub fn share(&mut self, place: u16, packet: &[u8])
        requires reads { first_fault packet.now ≡ None }
        requires fits { length packet.now ≤ 1536 }
        ensures shared { MayShare place packet.now self.old.shared.items self.new.shared.items }
        ensures mask { self.new.mask ≡ self.old.mask }
        ensures packet { self.new.packet ≡ self.old.packet }
        ensures all { self.new.store.all ≡ self.old.store.all }
    {
        let is_next = self.shared.len() == usize::from(place);
        if is_next && self.shared.len() < self.shared.capacity() && !self.full {
            match self.store.put(packet) {
                Some(packet) => self.shared.push_reserved(packet),
                None => self.full = true,
            }
        }
    }

    /// Appends the frame's packet with index `place` to the ring's queue. The packet is shared if possible, and otherwise copied.
    #[inline(always)]
    pub fn queue(&mut self, ring: &mut OutRing, place: u16, packet: &[u8], marker: bool)
        requires capacity { length ring.old.queued < 512 }
        requires reads { first_fault packet.now ≡ None }
        requires fits { length packet.now ≤ 1536 }
        requires same { IsShared place packet.now self.old.shared.items }
        ensures pushed { ring.new ≡ pushed packet.now marker ring.old }
        ensures shared { MayShare place packet.now self.old.shared.items self.new.shared.items }
        ensures mask { self.new.mask ≡ self.old.mask }
        ensures packet { self.new.packet ≡ self.old.packet }
        ensures all { self.new.store.all ≡ self.old.store.all }
    {
        evict(&mut self.store, ring);
        // This condition is checked here too, because most subscribers find the packet shared already, or no buffer free.
        if self.shared.len() == usize::from(place) && !self.full {
            self.share(place, packet);
        }
        match another(self.shared.get(usize::from(place))) {
            Some(shared) => push_shared(&mut self.store, ring, shared, marker),
            None => ring.push(packet, marker),
        }
    }

    /// Appends the packet that [`FrameCache::remask`] cached to the ring's queue. The packet is shared if possible, and otherwise copied.
    pub fn queue_remasked(&mut self, ring: &mut OutRing, marker: bool)
        requires capacity { length ring.old.queued < 512 }
        requires reads { first_fault self.old.packet ≡ None }
        requires fits { length self.old.packet ≤ 1536 }
        ensures pushed { ring.new ≡ pushed self.old.packet marker ring.old }
        ensures shared { self.new.shared ≡ self.old.shared }
        ensures mask { self.new.mask ≡ self.old.mask }
        ensures packet { self.new.packet ≡ self.old.packet }
        ensures all { self.new.store.all ≡ self.old.store.all }
    {
        evict(&mut self.store, ring);
        if self.remasked.is_none() && !self.full {
            self.remasked = self.store.put(self.packet.bytes());
            self.full = self.remasked.is_none();
        }
        match another(self.remasked.as_ref()) {
            Some(shared) => push_shared(&mut self.store, ring, shared, marker),
            None => ring.push(self.packet.bytes(), marker),
        }
    }

    /// Puts this mask of active decode targets into a copy of the current frame's first packet, and caches the copy. A packet that can't be rewritten is
    /// cached unchanged. If a copy with this mask is cached already, nothing changes. `id` is the header extension id of the dependency descriptor. The
    /// descriptor is read with the structure `force`.
    pub fn remask(&mut self, packet: &[u8], id: u8, force: Option<&Structure>, mask: u32)
        requires reads { first_fault packet.now ≡ None }
        requires fits { length packet.now ≤ 1536 }
        requires carries { CarriesMask id (option_copied force) packet.now self.old.mask self.old.packet }
        ensures packet { self.new.packet ≡ remasked_bytes id (option_copied force.entry) mask packet.now }
        ensures mask { self.new.mask ≡ Some mask }
        ensures carries { CarriesMask id (option_copied force.entry) packet.now self.new.mask self.new.packet }
        ensures shared { self.new.shared ≡ self.old.shared }
        ensures all { self.new.store.all ≡ self.old.store.all }
    {
        if !self.has(mask) {
            self.make(packet, id, force, mask);
        }
    }

    // Whether the cached packet was made for this mask.
    fn has(&self, mask: u32) -> bool
        ensures { result ≡ true → self.now.mask ≡ Some mask }
    {
        match self.mask {
            Some(known) => known == mask,
            None => false,
        }
    }

    // Rewrites the packet. Out of line: it is called once for each mask.
    #[inline(never)]
    fn make(&mut self, packet: &[u8], id: u8, force: Option<&Structure>, mask: u32)
        requires reads { first_fault packet.now ≡ None }
        requires fits { length packet.now ≤ 1536 }
        ensures mask { self.new.mask ≡ Some mask }
        ensures packet { self.new.packet ≡ remasked_bytes id (option_copied force.entry) mask packet.now }
        ensures shared { self.new.shared ≡ self.old.shared }
        ensures all { self.new.store.all ≡ self.old.store.all }
    {
        if let Some(packet) = self.remasked.take() {
            self.store.release(packet);
        }
        self.mask = Some(mask);
        match self
            .remasker
            .remask(packet, id, force, mask, &mut self.packet)
        {
            Ok(()) => {}
            Err(_) => self.packet.fill(packet),
        }
    }
}

// One more reference to the packet, for another ring. `None` if there is no packet, or if its reference count would overflow.
#[inline(always)]
fn another(shared: Option<&SharedPacket>) -> Option<SharedPacket>
    ensures { IfSome result (λ packet. option_copied shared.entry ≡ Some packet) }
{
    shared?.another()
}

// Releases a packet that the ring no longer keeps, if there is one. One call per push is enough, because a take leaves at most one such packet.
#[inline(always)]
fn evict(store: &mut PacketStore, ring: &mut OutRing)
    ensures ring { ring.new ≡ ring.old }
    ensures all { store.new.all ≡ store.old.all }
{
    if let Some(packet) = ring.evict() {
        store.release(packet);
    }
}

// Queues a shared packet, and releases the packet that was still in the same slot of the ring, if there was one.
#[inline(always)]
fn push_shared(store: &mut PacketStore, ring: &mut OutRing, packet: SharedPacket, marker: bool)
    requires { length ring.old.queued < 512 }
    ensures pushed { ring.new ≡ pushed packet marker ring.old }
    ensures all { store.new.all ≡ store.old.all }
{
    if let Some(gone) = ring.push_shared(packet, marker) {
        store.release(gone);
    }
}

// How many buffers the store has for this many subscribers.
fn capacity_for(subscribers: usize) -> usize
    ensures count { result ≡ capacity_for subscribers }
    ensures few { result ≤ 4800 }
{
    if subscribers < 2 {
        return 0;
    }
    let others = subscribers - 1;
    EARLY * others.min(15) + OWN * others.min(255)
}
