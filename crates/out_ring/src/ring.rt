// The ring of one subscriber.
ghost use Rattle.std.specs.Prelude.{◌≡◌, ◌<◌, ◌≤◌, ◌+◌, ◌↔◌, Err, IfOk, None, OnErr, OnOk, length};
ghost use Rattle.rtp_packet.specs.Faults.{first_fault};
ghost use Rattle.out_ring.specs.History.{Gives, GaveLately, GaveNoneLately, History, IsAfter, and_push, and_take, nothing_done};
ghost use Rattle.out_ring.specs.Ring.{Resends, Takes, begun, pushed};

use crate::places::SLOTS;
use crate::slots::Slots;
use crate::store::{PacketStore, SharedPacket};
use sfu_base::{NoMemory, PacketBuf, Refusal};
use std::alloc::Global;
use std::marker::Model;

/// The largest number of taken packets that are kept for retransmission (own rule).
const MOST_KEPT: u16 = 1024;

/// The packets that are sent to one subscriber. Contracts see the subscriber's SSRC, the sequence number of the next take, the queued packets,
/// and the kept packets with their sequence numbers.
#[derive(Debug, Drop)]
pub struct OutRing {
    ssrc: u32,
    // the sequence number of the oldest queued packet or, if none is queued, of the next pushed packet
    next: u16,
    queued: u16,
    kept: u16,
    // how many slots may still share a packet that isn't kept any more; they are right before the slots of the kept packets
    spent: u16,
    // The newest slots have the queued packets; the slots right before those have the kept packets.
    slots: Slots,
}

impl Model for OutRing {
    ghost use Rattle.out_ring.specs.Ring.{Ring};

    ghost Value = { Ring };

    ghost use Rattle.out_ring.specs.Held.{IsFull, seen};

    ghost view = { seen };

    ghost invariant = { IsFull };
}

impl OutRing {
    /// Makes a ring with no packets queued or kept. Its packets will have this SSRC, and sequence numbers from `first` on. All memory is allocated
    /// here, for 1,536 packets of at most 1,536 bytes. Returns `NoMemory` if memory runs out.
    pub fn new(alloc: Global, ssrc: u32, first: u16) -> Result<OutRing, NoMemory>
        ensures begun { IfOk result (λ ring. ring ≡ begun ssrc first) }
        ensures stands { IfOk result (λ ring. IsAfter ring (nothing_done ssrc first)) }
    {
        Ok(OutRing {
            ssrc,
            next: first,
            queued: 0,
            kept: 0,
            spent: 0,
            slots: Slots::new(alloc)?,
        })
    }

    /// How many packets are queued, at most 512.
    pub fn queued(&self) -> u16
        ensures queued { result ≡ length self.now.queued }
        ensures few { length self.now.queued ≤ 512 }
    {
        self.queued
    }

    /// Appends an RTP packet of at most 1,536 bytes to the queue, which must have fewer than 512 packets. The packet is sent with the next sequence
    /// number, the subscriber's SSRC and this marker; no other bit changes. The packet's bytes are copied once. Call `evict` first. Without that
    /// call, a packet that the oldest slot still shares is dropped, and the store may lose its buffer.
    #[inline(always)]
    pub fn push(&mut self, packet: &[u8], marker: bool)
        requires capacity { length self.old.queued < 512 }
        requires reads { first_fault packet.now ≡ None }
        requires fits { length packet.now ≤ 1536 }
        ensures pushed { self.new ≡ pushed packet.now marker self.old }
        ensures stands { (h : History) → IsAfter self.old h → IsAfter self.new (and_push h packet.now marker) }
    {
        let held = usize::from(self.queued + self.kept);
        self.queued += 1;
        self.spent = spent_in(self.spent, self.queued, self.kept);
        let _ = self.slots.fill(packet, marker, held);
    }

    /// Appends a shared packet to the queue, as `push` does with a copy. No byte is copied. The new packet takes the oldest slot. If that slot still
    /// shared another packet, returns that other packet. The caller can then release it to its store.
    #[inline(always)]
    pub fn push_shared(&mut self, packet: SharedPacket, marker: bool) -> Option<SharedPacket>
        requires capacity { length self.old.queued < 512 }
        ensures pushed { self.new ≡ pushed packet marker self.old }
        ensures stands { (h : History) → IsAfter self.old h → IsAfter self.new (and_push h packet marker) }
    {
        self.queued += 1;
        self.spent = spent_in(self.spent, self.queued, self.kept);
        self.slots.share(packet, marker)
    }

    /// A slot may still share its packet after the ring stopped keeping this packet. Checks the oldest such slot: if it shares a packet, removes and
    /// returns the packet. Call `evict` before each push, and release the returned packet. Each take adds at most one such slot, so the buffers are
    /// soon free again.
    #[inline(always)]
    pub fn evict(&mut self) -> Option<SharedPacket>
        ensures { self.new ≡ self.old }
    {
        if self.spent == 0 {
            return None;
        }
        let place = SLOTS - usize::from(self.queued + self.kept + self.spent);
        self.spent -= 1;
        self.slots.evict(place)
    }

    /// Ends the ring. Releases all its shared packets to the store.
    pub fn release(self, store: &mut PacketStore)
        ensures all { store.new.all ≡ store.old.all }
        ensures free { store.old.free ≤ store.new.free }
    {
        let OutRing { slots, .. } = self;
        slots.release(store);
    }

    /// Removes the oldest packet from the queue, puts it into `out` in place of the old contents, and returns its sequence number. The packet
    /// is then kept for retransmission. If more than 1,024 packets would be kept, the oldest is forgotten. Returns `Empty` and changes nothing
    /// if no packet is queued. The bytes are copied once.
    #[inline(always)]
    pub fn take(&mut self, out: &mut PacketBuf) -> Result<u16, Refusal>
        ensures takes { Takes self.old self.new result out.old out.new }
        ensures stands { (h : History) → IsAfter self.old h → OnOk result (IsAfter self.new (and_take h)) }
        ensures gives { (h : History) → IsAfter self.old h
            → IfOk result (λ n. Gives h h.takes (record { number = n; bytes = out.new })) }
        ensures empty { (h : History) → IsAfter self.old h → (result ≡ Err Refusal.Empty) ↔ (h.takes ≡ length h.pushes) }
        ensures reads { OnOk result (first_fault out.new ≡ None) }
        ensures fits { OnOk result (length out.new ≤ 1536) }
        ensures unchanged { OnErr result (self.new ≡ self.old) }
    {
        if self.queued == 0 {
            return Err(Refusal::Empty);
        }
        let number = self.next;
        self.slots
            .send(SLOTS - usize::from(self.queued), number, self.ssrc, out);
        self.next = number.wrapping_add(1);
        self.queued -= 1;
        self.spent += (self.kept + 1).saturating_sub(MOST_KEPT);
        self.kept = (self.kept + 1).min(MOST_KEPT);
        Ok(number)
    }

    /// Replaces the contents of `out` with the kept packet that has this sequence number, byte for byte as `take` returned it. Returns `NotKept` and
    /// changes nothing if none of the last 1,024 taken packets has this number. The packet is found in constant time, and its bytes are copied once.
    pub fn resend(&self, seq: u16, out: &mut PacketBuf) -> Result<(), Refusal>
        ensures resends { Resends self.now seq result out.old out.new }
        ensures first_bytes { (h : History) → IsAfter self.now h
            → OnOk result (GaveLately h (record { number = seq; bytes = out.new })) }
        ensures not_kept { (h : History) → IsAfter self.now h → OnErr result (GaveNoneLately h seq) }
        ensures reads { OnOk result (first_fault out.new ≡ None) }
        ensures fits { OnOk result (length out.new ≤ 1536) }
    {
        let takes_ago = self.next.wrapping_sub(seq);
        if takes_ago == 0 || takes_ago > self.kept {
            return Err(Refusal::NotKept {
                oldest: self.next.wrapping_sub(self.kept),
                next: self.next,
            });
        }
        let place = SLOTS - usize::from(self.queued + takes_ago);
        self.slots.send(place, seq, self.ssrc, out);
        Ok(())
    }
}

// How many of the `spent` slots remain if `queued` packets are queued and `kept` packets are kept. A push reuses the oldest slot.
#[inline(always)]
fn spent_in(spent: u16, queued: u16, kept: u16) -> u16
    requires queued { queued ≤ 512 }
    requires kept { kept ≤ 1024 }
    ensures { queued + kept + result ≤ 1536 }
{
    spent.min(SLOTS as u16 - (queued + kept))
}
