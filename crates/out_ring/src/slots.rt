// The slots of a ring.
ghost use Rattle.std.specs.Prelude.{◌≡◌, ◌<◌, ◌≤◌, ◌+◌, ◌-◌, ◌∷◌, ◌++◌, IfOk, None, Some, [], drop, length, map, slice_get, ℕ};
ghost use Rattle.std.specs.Option.{option_copied};
ghost use Rattle.rtp_packet.specs.Faults.{first_fault};
ghost use Rattle.out_ring.specs.declared.heads.Head.{Head};
ghost use Rattle.out_ring.specs.Pages.{copy_at, filled, place_of};
ghost use Rattle.out_ring.specs.Places.{SendsFrom};
ghost use Rattle.out_ring.specs.Slots.{AreHeld, AreIn, HasCopy, bytes_by, packet_in, packets_of};

use crate::heads::Heads;
use crate::pages::{Copies, Location, PAGE_BYTES, PAGES};
use crate::places::SLOTS;
use crate::store::{PacketStore, SharedPacket};
use rtp_packet::rewrite;
use sfu_base::{NoMemory, PacketBuf};
use std::alloc::Global;

/// The last 1,536 packets that were put in, each with the marker with which it is sent. A slot shares its packet, or has a copy of its own. `new`
/// allocates the memory for all heads and copies, but doesn't touch it. Each push touches the memory of at most one new head. If the push copies the
/// packet, it also touches at most one new page. `packets_of` is the list of all 1,536 packets, the oldest first. `AreHeld slots n` says that each of
/// the n newest is shared or has its copy in a page.
#[derive(Debug, Drop)]
pub struct Slots {
    pub heads: Heads,
    // the copies of the packets that aren't shared
    pub own: Copies,
}

impl Slots {
    /// Makes 1,536 slots. Returns `NoMemory` if memory runs out. No later call allocates memory.
    pub fn new(alloc: Global) -> Result<Slots, NoMemory>
        ensures { IfOk result (λ slots. AreHeld slots 0) }
    {
        Ok(Slots {
            heads: Heads::new(alloc)?,
            own: Copies::new(alloc)?,
        })
    }

    /// Drops the oldest packet, and adds a copy of this packet, with this marker, as the newest. The `held` newest of the other packets are
    /// unchanged. Returns the packet that the oldest slot shared, if it shared one.
    pub fn fill(&mut self, packet: &[u8], marker: bool, held: usize) -> Option<SharedPacket>
        requires reads { first_fault packet.now ≡ None }
        requires fits { length packet.now ≤ 1536 }
        requires held { held < 1536 }
        requires placed { AreHeld self.old held }
        ensures placed { AreHeld self.new (held + 1) }
        ensures packets { drop (1535 - held) (packets_of self.new)
            ≡ drop (1536 - held) (packets_of self.old) ++ record { bytes = packet.now; marker = marker } ∷ [] }
    {
        make_capacity(&mut self.own, &self.heads, held, packet.len());
        let location = self.own.write(packet);
        self.heads.put_last(None, location, marker)
    }

    /// Drops the oldest packet, and adds this shared packet, with this marker, as the newest. Returns the packet that the oldest slot shared, if it shared one.
    #[inline(always)]
    pub fn share(&mut self, packet: SharedPacket, marker: bool) -> Option<SharedPacket>
        ensures placed { (held : ℕ) → held < 1536 → AreHeld self.old held → AreHeld self.new (held + 1) }
        ensures packets { packets_of self.new ≡ drop 1 (packets_of self.old) ++ record { bytes = packet; marker = marker } ∷ [] }
    {
        let location = self.own.nowhere();
        self.heads.put_last(Some(packet), location, marker)
    }

    /// Removes and returns the packet that the slot at this place shares, if it shares one. The oldest slot has place 0. Afterwards the packets of
    /// this slot and of older slots are unspecified. The packets of newer slots are unchanged.
    #[inline(always)]
    pub fn evict(&mut self, place: usize) -> Option<SharedPacket>
        requires { place < 1536 }
        ensures others { (from : ℕ) → place < from → drop from self.new.heads ≡ drop from self.old.heads }
        ensures size { length self.new.heads ≡ length self.old.heads }
        ensures own { self.new.own ≡ self.old.own }
    {
        self.heads.evict(place)
    }

    /// Releases all shared packets to the store.
    pub fn release(self, store: &mut PacketStore)
        ensures all { store.new.all ≡ store.old.all }
        ensures free { store.old.free ≤ store.new.free }
    {
        let Slots { heads, .. } = self;
        heads.release(store);
    }

    /// Replaces the contents of `out` with the packet of the slot at this place. The sequence number becomes `seq`, the SSRC becomes `ssrc`, and the
    /// marker becomes that of the slot. The oldest slot has place 0. The result is an RTP packet of the same length.
    pub fn send(&self, place: usize, seq: u16, ssrc: u32, out: &mut PacketBuf)
        requires place { place < 1536 }
        requires copy { (head : Head) → slice_get self.now.heads place ≡ Some head → HasCopy self.now.own.bytes.items head }
        ensures sends { SendsFrom (packets_of self.now) place seq ssrc out.new }
        ensures reads { first_fault out.new ≡ None }
        ensures fits { length out.new ≤ 1536 }
    {
        let (shared, location, marker) = self.heads.get(place);
        fill_out(shared, &self.own, location, out);
        rewrite(out, seq, ssrc, marker);
    }
}

// Makes capacity for a copy of this size. The `held` newest packets are unchanged.
#[inline(always)]
fn make_capacity(own: &mut Copies, heads: &Heads, held: usize, size: usize)
    requires full { length heads.now ≡ 1536 }
    requires held { held < 1536 }
    requires fits { size ≤ 1536 }
    requires placed { AreIn own.old (drop (1536 - held) heads.now) }
    ensures placed { AreIn own.new (drop (1536 - held) heads.now) }
    ensures packets { map (packet_in own.new.bytes.items) (drop (1536 - held) heads.now)
        ≡ map (packet_in own.old.bytes.items) (drop (1536 - held) heads.now) }
    ensures capacity { own.new.at + size ≤ own.new.limit }
{
    if own.at + size > own.limit {
        extend(own, heads, held, size);
    }
}

// As `make_capacity`: in the current page, or else in another one.
#[inline(never)]
fn extend(own: &mut Copies, heads: &Heads, held: usize, size: usize)
    requires full { length heads.now ≡ 1536 }
    requires held { held < 1536 }
    requires fits { size ≤ 1536 }
    requires placed { AreIn own.old (drop (1536 - held) heads.now) }
    ensures placed { AreIn own.new (drop (1536 - held) heads.now) }
    ensures packets { map (packet_in own.new.bytes.items) (drop (1536 - held) heads.now)
        ≡ map (packet_in own.old.bytes.items) (drop (1536 - held) heads.now) }
    ensures capacity { own.new.at + size ≤ own.new.limit }
{
    turn_if_full(own, heads, held, size);
    own.extend(size);
}

// Begins another page if the current one has no capacity for a copy of this size.
fn turn_if_full(own: &mut Copies, heads: &Heads, held: usize, size: usize)
    requires full { length heads.now ≡ 1536 }
    requires held { held < 1536 }
    requires fits { size ≤ 1536 }
    requires placed { AreIn own.old (drop (1536 - held) heads.now) }
    ensures placed { AreIn own.new (drop (1536 - held) heads.now) }
    ensures bytes { own.new.bytes ≡ own.old.bytes }
    ensures capacity { filled own.new.order.items own.new.at + size ≤ 49152 }
{
    if own.filled() + size > PAGE_BYTES {
        turn(own, heads, held);
    }
}

// Begins another page, one that none of the `held` newest packets is in.
fn turn(own: &mut Copies, heads: &Heads, held: usize)
    requires full { length heads.now ≡ 1536 }
    requires held { held < 1536 }
    requires used { 47616 < filled own.old.order.items own.old.at }
    requires placed { AreIn own.old (drop (1536 - held) heads.now) }
    ensures placed { AreIn own.new (drop (1536 - held) heads.now) }
    ensures bytes { own.new.bytes ≡ own.old.bytes }
    ensures empty { filled own.new.order.items own.new.at ≡ 0 }
{
    let place = unused_place(own, heads, held);
    own.turn(place);
}

// The place of a page that none of the `held` newest packets is in: right before that of the oldest one's page.
fn unused_place(own: &Copies, heads: &Heads, held: usize) -> usize
    requires full { length heads.now ≡ 1536 }
    requires held { held < 1536 }
    requires used { 47616 < filled own.now.order.items own.now.at }
    requires placed { AreIn own.now (drop (1536 - held) heads.now) }
    ensures below { result < 49 }
    ensures unused { (i : ℕ) (head : Head) → slice_get (drop (1536 - held) heads.now) i ≡ Some head
        → result < place_of own.now.order.items head.location.page }
{
    if held == 0 {
        return PAGES - 1;
    }
    let (_, location, _) = heads.get(SLOTS - held);
    own.place(location.page) - 1
}

// Replaces the contents of `out` with the shared packet, or else with the copy at this location.
#[inline(always)]
fn fill_out(shared: Option<&SharedPacket>, own: &Copies, location: Location, out: &mut PacketBuf)
    requires there { option_copied shared ≡ None → location.at + location.size ≤ length own.now.bytes.items }
    requires reads { option_copied shared ≡ None → first_fault (copy_at own.now.bytes.items location) ≡ None }
    requires fits { location.size ≤ 1536 }
    ensures bytes { out.new ≡ bytes_by (option_copied shared.entry) (copy_at own.now.bytes.items location) }
    ensures reads { first_fault out.new ≡ None }
    ensures fits { length out.new ≤ 1536 }
{
    match shared {
        Some(packet) => out.fill(packet.bytes()),
        None => out.fill(own.get(location)),
    }
}
