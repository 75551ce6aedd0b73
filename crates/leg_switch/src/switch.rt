// Decides which leg is forwarded.
ghost use Rattle.std.specs.Prelude.{◌≡◌, None};
ghost use Rattle.rtp_packet.specs.Faults.{first_fault};
ghost use Rattle.leg_switch.specs.Switching.{begun};

use crate::marks::{ends_frame, starts_key};
use dd_descriptor::NewestDescriptor;
use std::marker::Model;

/// At a change of leg, the forwarded timestamp rises by this number of ticks of the RTP clock (own rule).
const STEP: u32 = 3000;

/// The chosen leg and the active leg of a bundle. Legs count from 1. The packets of the active leg are forwarded. A key start, the first packet of a
/// key frame, makes the chosen leg active if it comes from this leg. The last forwarded packet, if there is one, must have ended its frame. At a
/// change of leg, the forwarded timestamp rises by 3,000 ticks.
#[derive(Debug, Drop)]
pub struct Switch {
    chosen: u8,
    active: Option<u8>,
    // The number that is added to the timestamps of the active leg, modulo 2^32.
    offset: u32,
    // Whether the last forwarded packet ended its frame, and the timestamp with which it was forwarded.
    ended: bool,
    timestamp: u32,
}

impl Model for Switch {
    ghost use Rattle.leg_switch.specs.Switching.{Standing};

    ghost Value = { Standing };

    ghost view = { λ s. record { chosen = s.chosen; active = s.active; offset = s.offset; ended = s.ended; timestamp = s.timestamp } };
}

impl Switch {
    ghost use Rattle.std.specs.Prelude.{◌≡◌, ◌==◌, ◌&&◌, None};
    ghost use Rattle.rtp_packet.specs.Faults.{first_fault};
    ghost use Rattle.leg_switch.specs.Marks.{marks_of};
    ghost use Rattle.leg_switch.specs.Switching.{after_packet, begun, may_change, offset_for, stamp_of};

    /// A switch with leg 1 chosen and no leg active.
    pub fn new() -> Switch
        ensures { result ≡ begun }
    {
        Switch {
            chosen: 1,
            active: None,
            offset: 0,
            ended: false,
            timestamp: 0,
        }
    }

    /// The chosen leg, counted from 1.
    pub fn chosen(&self) -> u8
        ensures { result ≡ self.now.chosen }
    {
        self.chosen
    }

    /// The active leg, counted from 1, or `None` before the first packet is forwarded.
    pub fn active(&self) -> Option<u8>
        ensures { result ≡ self.now.active }
    {
        self.active
    }

    /// Chooses a leg, counted from 1. The active leg stays the same.
    pub fn choose(&mut self, leg: u8)
        ensures { self.new ≡ record self.old { chosen = leg } }
    {
        self.chosen = leg;
    }

    /// Decides whether a packet taken from `leg` is forwarded. The packet must be a valid RTP packet. Returns the timestamp with which the
    /// packet is to be forwarded, or `None` if it is to be dropped. `id` is the header extension id of the packet's dependency descriptor (RFC
    /// 8285). `newest` is working memory. Its contents are unspecified afterwards.
    pub fn pass(
        &mut self,
        id: u8,
        leg: u8,
        packet: &[u8],
        newest: &mut NewestDescriptor,
    ) -> Option<u32>
        requires { first_fault packet.now ≡ None }
        ensures stands { self.new ≡ after_packet (marks_of id) self.old leg packet.now }
        ensures passes { result ≡ stamp_of (marks_of id) self.old leg packet.now }
    {
        let Ok(parts) = rtp_packet::read(packet) else {
            unreachable!()
        };
        let is_active = self.active == Some(leg);
        if !is_active {
            if !self.may_change_to(leg) || !starts_key(packet, id, newest) {
                return None;
            }
            self.offset = self.offset_for(parts.timestamp);
        }
        self.active = Some(leg);
        self.ended = ends_frame(packet, id);
        self.timestamp = parts.timestamp.wrapping_add(self.offset);
        Some(self.timestamp)
    }

    // Whether a key start of this leg would make the leg active, if it isn't active yet.
    fn may_change_to(&self, leg: u8) -> bool
        ensures { result ≡ (self.now.chosen == leg && may_change self.now.active self.now.ended) }
    {
        self.chosen == leg && (self.active.is_none() || self.ended)
    }

    // The offset of a leg that a packet with this timestamp makes active.
    fn offset_for(&self, timestamp: u32) -> u32
        ensures { result ≡ offset_for self.now.active self.now.timestamp timestamp }
    {
        match self.active {
            None => 0,
            Some(_) => self.timestamp.wrapping_add(STEP).wrapping_sub(timestamp),
        }
    }
}

impl Default for Switch {
    fn default() -> Switch
        ensures { result ≡ begun }
    {
        Switch::new()
    }
}
