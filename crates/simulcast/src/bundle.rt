// One bundle.
ghost use Rattle.std.specs.Prelude.{◌≤◌, length};

use crate::fault::BundleFault;
use crate::order::unless;
use crate::taken::marker;
use dd_descriptor::NewestDescriptor;
use leg_switch::{FrameNumbers, Switch};
use out_ring::OutRing;
use rtp_packet::restamp;
use sfu_base::{NoMemory, PacketBuf, Refusal};
use std::alloc::Global;

/// The maximum number of packets in a bundle's queue (own rule).
const MOST_QUEUED: u16 = 512;

/// One bundle. `number` is the bundle's number. `id` is the header extension id of the dependency descriptors on all legs. `legs` are the subscriber
/// numbers of the legs. `switch` holds the chosen leg and the active leg. If `renumbers` is true, the forwarded frame numbers continue over a change of
/// leg. `numbers` holds the state from which these frame numbers are computed. `ring` holds the outgoing packets.
#[derive(Drop)]
pub struct Bundle {
    pub number: u32,
    pub id: u8,
    pub legs: Vec<u32>,
    pub switch: Switch,
    pub renumbers: bool,
    pub numbers: FrameNumbers,
    pub ring: OutRing,
    ghost few_legs: { length legs.items ≤ 3 },
}

impl Bundle {
    ghost use Rattle.std.specs.Prelude.{◌≡◌, ◌<◌, ◌≤◌, ◌+◌, IfErr, IfOk, OnErr, None, length, nat_le};
    ghost use Rattle.rtp_packet.specs.Faults.{first_fault};
    ghost use Rattle.simulcast.specs.Made.{Made, has_leg, leg_at, made_with};
    ghost use Rattle.simulcast.specs.Pumping.{and_took, order};
    ghost use Rattle.simulcast.specs.Bundle.{ChoosesIn, DrawsIn, IsBundle, RedrawsIn, numbers_next, renumbered_if};

    /// Returns a new bundle. Leg 1 is chosen, no leg is active, and no packet is queued. If `renumbers` is true, the forwarded frame numbers continue over
    /// a change of leg.
    pub fn new(
        alloc: Global,
        number: u32,
        id: u8,
        ssrc: u32,
        first: u16,
        legs: &[u32],
        renumbers: bool,
    ) -> Result<Bundle, NoMemory>
        requires { length legs.now ≤ 3 }
        ensures { IfOk result (λ b. IsBundle b (made_with renumbers number id ssrc first legs.now)) }
    {
        let Ok(legs) = Vec::from_slice(alloc, legs) else {
            return Err(NoMemory);
        };
        let Ok(ring) = OutRing::new(alloc, ssrc, first) else {
            return Err(NoMemory);
        };
        Ok(Bundle {
            number,
            id,
            legs,
            switch: Switch::new(),
            renumbers,
            numbers: FrameNumbers::new(),
            ring,
        })
    }

    /// Returns whether this subscriber is a leg of the bundle.
    pub fn has(&self, subscriber: u32) -> bool
        ensures { result ≡ has_leg subscriber self.now.legs.items }
    {
        self.legs.iter().any(|leg| *leg == subscriber)
    }

    /// Chooses the leg with this number, counted from 1. Returns the subscriber of the leg, or `None` if the leg is already active. Returns `NoLeg` if there
    /// is no such leg.
    pub fn choose(&mut self, leg: u8) -> Result<Option<u32>, BundleFault>
        ensures chooses { ChoosesIn self.old self.new leg result }
        ensures fault { IfErr result (λ why. why ≡ BundleFault.NoLeg (length self.old.legs.items)) }
    {
        let Some(subscriber) = self.leg(leg) else {
            return Err(BundleFault::NoLeg {
                legs: self.legs.len() as u8,
            });
        };
        self.switch.choose(leg);
        if self.switch.active() == Some(leg) {
            Ok(None)
        } else {
            Ok(Some(subscriber))
        }
    }

    /// Dequeues the oldest packet, writes the packet to `out`, and returns the packet's sequence number. Returns `Empty` if no packet is queued.
    pub fn draw(&mut self, out: &mut PacketBuf) -> Result<u16, Refusal>
        ensures draws { DrawsIn self.old self.new out.new result }
        ensures unchanged { OnErr result (out.new ≡ out.old) }
    {
        self.ring.take(out)
    }

    /// Writes an already drawn packet to `out` again. `seq` is the packet's sequence number. Returns `NotKept` if none of the last 1,024 drawn packets has
    /// this number.
    pub fn redraw(&self, seq: u16, out: &mut PacketBuf) -> Result<(), Refusal>
        ensures redraws { RedrawsIn self.now seq out.new result }
        ensures unchanged { OnErr result (out.new ≡ out.old) }
    {
        self.ring.resend(seq, out)
    }

    /// Returns the order in which a pump takes packets from the legs. Each entry is the number of a leg, counted from 1, or `None`. The pump skips each
    /// `None`.
    pub fn order(&self) -> [Option<u8>; 5]
        ensures { result ≡ order self.now.switch }
    {
        let active = self.switch.active();
        let chosen = self.switch.chosen();
        [
            active,
            unless(active == Some(chosen), chosen),
            unless(active == Some(1) || chosen == 1, 1),
            unless(active == Some(2) || chosen == 2, 2),
            unless(active == Some(3) || chosen == 3, 3),
        ]
    }

    /// Returns the subscriber of the leg with this number, counted from 1, or `None` if there is no such leg.
    pub fn leg(&self, leg: u8) -> Option<u32>
        ensures { result ≡ leg_at leg self.now.legs.items }
    {
        match leg {
            0 => None,
            _ => self.legs.get(usize::from(leg) - 1).copied(),
        }
    }

    /// Returns the number of queued packets.
    pub fn queued(&self) -> u16
        ensures { result ≡ length self.now.ring.queued }
    {
        self.ring.queued()
    }

    /// Returns whether the queue is full, that is, whether at least 512 packets are queued.
    pub fn is_full(&self) -> bool
        ensures { result ≡ nat_le 512 (length self.now.ring.queued) }
    {
        self.ring.queued() >= MOST_QUEUED
    }

    // Writes the new frame number into a forwarded packet, if the bundle's frame numbers continue over a change of leg. `active` is the leg that was active
    // before this packet.
    fn renumber(&mut self, active: Option<u8>, leg: u8, packet: &mut PacketBuf)
        requires { first_fault packet.old ≡ None }
        ensures numbers { self.new ≡ record self.old { numbers = numbers_next self.old.renumbers self.old.id active self.old.numbers leg packet.old } }
        ensures packet { packet.new ≡ renumbered_if self.old.renumbers self.old.id self.new.numbers.last packet.old }
        ensures reads { first_fault packet.new ≡ None }
        ensures len { length packet.new ≡ length packet.old }
    {
        if self.renumbers {
            self.numbers.renumber(self.id, active, leg, packet);
        }
    }

    /// Handles a packet that was taken from a leg. A packet that is to be forwarded is queued with its new timestamp and, if `renumbers` is true, with its
    /// new frame number. Any other packet is dropped.
    pub fn take_in(&mut self, leg: u8, packet: &mut PacketBuf, newest: &mut NewestDescriptor)
        requires capacity { length self.old.ring.queued < 512 }
        requires reads { first_fault packet.old ≡ None }
        requires fits { length packet.old ≤ 1536 }
        ensures taken { (m : Made) → IsBundle self.old m → IsBundle self.new (and_took leg packet.old m) }
        ensures grew { length self.old.ring.queued ≤ length self.new.ring.queued }
        ensures by { length self.new.ring.queued ≤ length self.old.ring.queued + 1 }
    {
        let active = self.switch.active();
        if let Some(timestamp) = self.switch.pass(self.id, leg, packet.bytes(), newest) {
            self.renumber(active, leg, packet);
            let marker = marker(packet.bytes());
            restamp(packet, timestamp);
            self.ring.push(packet.bytes(), marker);
        }
    }
}
