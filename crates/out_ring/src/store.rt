// Packets that rings share.
ghost use Rattle.std.specs.Prelude.{◌≡◌, ◌≤◌, ◌+◌, ◌-◌, IfSome, None, OnOk, length, max, min};
ghost use Rattle.rtp_packet.specs.Faults.{first_fault};

use crate::packet::StoredPacket;
use sfu_base::NoMemory;
use std::alloc::Global;
use std::marker::Model;
use std::sync::Arc;

/// A counted reference to a packet that rings share. The packet's bytes are stored once, and don't change while there is a reference. Contracts
/// see the reference as the packet's bytes.
#[derive(Debug, Drop)]
pub struct SharedPacket {
    packet: Arc<StoredPacket>,
}

impl Model for SharedPacket {
    ghost use Rattle.std.specs.Prelude.{List, ℕ};

    ghost Value = { List ℕ };

    ghost use Rattle.out_ring.specs.Store.{bytes_of};

    ghost view = { bytes_of };
}

impl SharedPacket {
    /// Returns one more reference to the same packet, or `None` if the reference count would overflow. The call allocates no memory.
    #[inline(always)]
    pub fn another(&self) -> Option<SharedPacket>
        ensures { IfSome result (λ shared. shared ≡ self.now) }
    {
        match Arc::try_clone(&self.packet) {
            Ok(packet) => Some(SharedPacket { packet }),
            Err(_) => None,
        }
    }

    /// The packet's bytes.
    pub fn bytes(&self) -> &[u8]
        ensures bytes { result.now ≡ self.now }
        ensures reads { first_fault self.now ≡ None }
        ensures fits { length self.now ≤ 1536 }
    {
        self.packet.bytes()
    }
}

/// A pool of buffers of 1,536 bytes for packets that rings share. A buffer is free again once the last reference to its packet is released. The
/// buffer that was released last is reused first, so that few buffers are touched. Contracts see how many buffers there are in all, and how
/// many of them are free.
#[derive(Drop)]
pub struct PacketStore {
    free: Vec<Arc<StoredPacket>>,
    // how many buffers there are, both free ones and those in use
    all: usize,
}

impl Model for PacketStore {
    ghost use Rattle.std.specs.Prelude.{length};
    ghost use Rattle.out_ring.specs.Capacity.{Capacity};

    ghost Value = { Capacity };

    ghost view = { λ store. record { all = store.all; free = length store.free.items } };
}

impl PacketStore {
    /// Makes a store without buffers, and allocates no memory.
    pub fn new(alloc: Global) -> PacketStore
        ensures { result ≡ record { all = 0; free = 0 } }
    {
        PacketStore {
            free: Vec::new(alloc),
            all: 0,
        }
    }

    /// How many buffers are free.
    pub fn spare(&self) -> usize
        ensures { result ≡ self.now.free }
    {
        self.free.len()
    }

    /// Allocates buffers until there are at least `all` buffers in total, free or in use. Returns `NoMemory` if memory runs out; some buffers may
    /// have been added by then.
    pub fn grow(&mut self, alloc: Global, all: usize) -> Result<(), NoMemory>
        ensures enough { OnOk result (all ≤ self.new.all) }
        ensures free { self.old.free ≤ self.new.free }
        ensures grown { self.new.free + self.old.all ≡ self.old.free + self.new.all }
        ensures most { self.new.all ≤ max self.old.all all }
    {
        if all <= self.all {
            return Ok(());
        }
        let Ok(()) = self.free.reserve(all.saturating_sub(self.free.len())) else {
            return Err(NoMemory);
        };
        while self.all < all {
            let Ok(buf) = Arc::new(alloc, StoredPacket::new()) else {
                return Err(NoMemory);
            };
            let Ok(()) = self.free.push(buf) else {
                return Err(NoMemory);
            };
            self.all += 1;
        }
        Ok(())
    }

    /// Deallocates free buffers until there are `all` buffers in total, or until no buffer is free. If there are already at most `all` buffers,
    /// nothing changes.
    pub fn shrink(&mut self, all: usize)
        ensures all { self.new.all ≡ self.old.all - min self.old.free (self.old.all - all) }
        ensures free { self.new.free ≡ self.old.free - min self.old.free (self.old.all - all) }
    {
        while all < self.all && self.free.pop().is_some() {
            self.all -= 1;
        }
    }

    /// Copies an RTP packet of at most 1,536 bytes into a free buffer, and returns a reference to it. Returns `None` if no buffer is free. The call
    /// allocates no memory.
    pub fn put(&mut self, packet: &[u8]) -> Option<SharedPacket>
        requires reads { first_fault packet.now ≡ None }
        requires fits { length packet.now ≤ 1536 }
        ensures packet { IfSome result (λ shared. shared ≡ packet.now) }
        ensures all { self.new.all ≡ self.old.all }
        ensures free { self.new.free ≡ self.old.free - 1 }
        ensures none { self.old.free ≡ 0 → result ≡ None }
        ensures used { IfSome result (λ _. self.old.free ≡ self.new.free + 1) }
    {
        let mut buf = self.free.pop()?;
        match Arc::get_mut(&mut buf) {
            Some(stored) => stored.fill(packet),
            None => return None,
        }
        Some(SharedPacket { packet: buf })
    }

    /// Drops one reference to a packet. When the last reference is dropped, the packet's buffer goes back to the pool. The call allocates no memory.
    /// If a `SharedPacket` is dropped without this call, the pool may lose its buffer.
    #[inline(always)]
    pub fn release(&mut self, packet: SharedPacket)
        ensures all { self.new.all ≡ self.old.all }
        ensures more { self.old.free ≤ self.new.free }
        ensures one { self.new.free ≤ self.old.free + 1 }
    {
        let SharedPacket { packet } = packet;
        if Arc::strong_count(&packet) == 1 && self.free.len() < self.free.capacity() {
            self.free.push_reserved(packet);
        }
    }
}
