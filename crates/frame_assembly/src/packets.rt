// The packets of one frame.
ghost use Rattle.std.specs.Prelude.{◌≡◌, ◌<◌, ◌≤◌, ◌+◌, ◌++◌, ◌∷◌, [], IfOk, length, Some, slice_get, take, vec_len};
ghost use Rattle.std.specs.Vec.{vec_capacity};

use packet_slot::PacketSlot;
use sfu_base::NoMemory;
use std::alloc::Global;
use std::marker::Model;
use std::mem;

/// The largest number of packets of a frame (own rule).
pub const MOST_PACKETS: usize = 512;

/// How many packets of a frame are swapped in: the first 32. Later packets are copied.
const SWAPPED: usize = 32;

/// A list of up to 512 packets. Contracts see the bytes of each packet.
#[derive(Drop)]
pub struct Packets {
    // the slots of the first 32 packets, which are swapped with the callers' slots
    swapped: Vec<Box<PacketSlot>>,
    // Copies of the later packets. The memory is reserved, but isn't touched until a frame first has more than 32 packets.
    copied: Vec<PacketSlot>,
    count: usize,
}

impl Model for Packets {
    ghost use Rattle.std.specs.Prelude.{List, ℕ};
    ghost use Rattle.frame_assembly.specs.Slots.{HasSlots, kept_packets};

    ghost Value = { List (List ℕ) };

    ghost view = { kept_packets };

    ghost invariant = { HasSlots };
}

impl Packets {
    /// An empty list. Allocates memory for 512 packets, or returns `NoMemory`. No later call allocates memory.
    pub fn new(alloc: Global) -> Result<Packets, NoMemory>
        ensures { IfOk result (λ packets. packets ≡ []) }
    {
        let copied = Vec::with_capacity(alloc, MOST_PACKETS - SWAPPED).map_err(|_| NoMemory)?;
        let mut swapped = Vec::with_capacity(alloc, SWAPPED).map_err(|_| NoMemory)?;
        while swapped.len() < SWAPPED {
            swapped.push_reserved(empty_slot(alloc)?);
        }
        Ok(Packets {
            swapped,
            copied,
            count: 0,
        })
    }

    /// How many packets there are.
    pub fn len(&self) -> usize
        ensures count { result ≡ length self.now }
        ensures few { length self.now ≤ 512 }
    {
        self.count
    }

    /// Removes all packets.
    pub fn clear(&mut self)
        ensures { self.new ≡ [] }
    {
        self.count = 0;
    }

    /// Adds a packet. If it is one of the first 32 packets, `slot` is swapped with one of the list's slots. Otherwise the packet's bytes are copied.
    pub fn push(&mut self, slot: &mut Box<PacketSlot>)
        requires { length self.old < 512 }
        ensures { self.new ≡ self.old ++ slot.old.value ∷ [] }
    {
        if self.count < SWAPPED {
            mem::swap(&mut self.swapped[self.count], slot);
        } else {
            put_copy(&mut self.copied, self.count - SWAPPED, slot);
        }
        self.count += 1;
    }

    /// The bytes of the packet at this place, counted from 0.
    pub fn at(&self, place: usize) -> &[u8]
        requires { place < length self.now }
        ensures { slice_get self.now place ≡ Some result.now }
    {
        if place < SWAPPED {
            self.swapped[place].bytes()
        } else {
            self.copied[place - SWAPPED].bytes()
        }
    }
}

// Copies a packet into the slot at this place. If there is no slot yet, makes one. Out of line: few frames have more than 32 packets.
#[inline(never)]
fn put_copy(copied: &mut Vec<PacketSlot>, place: usize, slot: &PacketSlot)
    requires place { place < 480 }
    requires next { place ≤ vec_len copied.old }
    requires few { vec_len copied.old ≤ 480 }
    requires capacity { 480 ≤ vec_capacity copied.old }
    ensures items { take (place + 1) copied.new.items ≡ take place copied.old.items ++ slot.now ∷ [] }
    ensures made { place < vec_len copied.new }
    ensures few { vec_len copied.new ≤ 480 }
    ensures capacity { 480 ≤ vec_capacity copied.new }
{
    if copied.len() == place {
        copied.push_reserved(PacketSlot::new());
    }
    copied[place].fill(slot.bytes());
}

/// A slot without bytes. Returns `NoMemory` if memory runs out.
pub fn empty_slot(alloc: Global) -> Result<Box<PacketSlot>, NoMemory>
    ensures { IfOk result (λ slot. slot.value ≡ []) }
{
    Box::new(alloc, PacketSlot::new()).map_err(|_| NoMemory)
}
