// Frame numbers that continue over a change of leg.
ghost use Rattle.std.specs.Prelude.{◌≡◌, ◌+◌, ◌≤◌, IfSome, None, Some, length, take};
ghost use Rattle.dd_bits.specs.Bits.{bits_of_bytes, value};
ghost use Rattle.rtp_packet.specs.Faults.{first_fault};
ghost use Rattle.leg_switch.specs.FrameNumbers.{header_of, not_numbered, number_place, place_by};

use byteorder::{BigEndian, ByteOrder};
use rtp_extension::elements;
use sfu_base::PacketBuf;
use std::marker::Model;

/// The length of the fixed header, in bytes (RFC 3550, section 5.1).
const FIXED_HEADER: usize = 12;

/// The length of a CSRC identifier, in bytes.
const CSRC: usize = 4;

/// The length of the header extension's profile and length fields, in bytes (RFC 3550, section 5.3.1).
const EXTENSION_HEADER: usize = 4;

/// The profile value of a header extension in the one-byte form (RFC 8285, section 4.2).
const ONE_BYTE_PROFILE: u16 = 0xBEDE;

/// The length of the mandatory descriptor fields, in bytes (AV1 RTP payload format, Appendix A).
const MANDATORY: usize = 3;

/// Frame numbers that continue over a change of leg: the frame numbers of the active leg plus an offset, modulo 65,536. The offset of the first leg
/// is 0. At a change of leg, the offset is chosen so that the first forwarded frame number of the new leg is the last one of the old leg plus 1.
#[derive(Debug, Drop)]
pub struct FrameNumbers {
    // The number that is added to the frame numbers of the active leg, modulo 65,536.
    offset: u16,
    // The frame number of the last forwarded packet that had a frame number.
    last: u16,
}

impl Model for FrameNumbers {
    ghost use Rattle.leg_switch.specs.FrameNumbers.{Numbering};

    ghost Value = { Numbering };

    ghost view = { λ n. record { offset = n.offset; last = n.last } };
}

impl FrameNumbers {
    ghost use Rattle.std.specs.Prelude.{◌≡◌, None, length};
    ghost use Rattle.rtp_packet.specs.Faults.{first_fault};
    ghost use Rattle.leg_switch.specs.FrameNumbers.{after_forwarded, not_numbered, number_offset_for, renumbered};

    /// The state before the first forwarded packet.
    pub fn new() -> FrameNumbers
        ensures { result ≡ not_numbered }
    {
        FrameNumbers { offset: 0, last: 0 }
    }

    /// Overwrites the frame number of a forwarded packet that was taken from `leg`. The packet must be a valid RTP packet. `active` is the leg that
    /// was active before this packet. Legs count from 1. `id` is the header extension id of the packet's dependency descriptor (RFC 8285). Only the
    /// two bytes of the frame number change. If the packet has no descriptor, or one of fewer than three bytes, the packet is unchanged.
    pub fn renumber(&mut self, id: u8, active: Option<u8>, leg: u8, packet: &mut PacketBuf)
        requires { first_fault packet.old ≡ None }
        ensures numbers { self.new ≡ after_forwarded id active self.old leg packet.old }
        ensures packet { packet.new ≡ renumbered id self.new.last packet.old }
        ensures reads { first_fault packet.new ≡ None }
        ensures len { length packet.new ≡ length packet.old }
    {
        let Some(place) = number_place(packet.bytes(), id) else {
            return;
        };
        let own = number_in(&packet.bytes()[place..]);
        if active != Some(leg) {
            self.offset = self.offset_for(active, own);
        }
        self.last = own.wrapping_add(self.offset);
        let mut field = [0u8; 2];
        BigEndian::write_u16(&mut field, self.last);
        packet.overwrite(place, &field);
    }

    // The offset of a leg that a frame with the number `own` makes active.
    fn offset_for(&self, active: Option<u8>, own: u16) -> u16
        ensures { result ≡ number_offset_for active self.now.last own }
    {
        match active {
            None => 0,
            Some(_) => self.last.wrapping_add(1).wrapping_sub(own),
        }
    }
}

impl Default for FrameNumbers {
    fn default() -> FrameNumbers
        ensures { result ≡ not_numbered }
    {
        FrameNumbers::new()
    }
}

// The 16-bit number at the start of these bytes.
fn number_in(bytes: &[u8]) -> u16
    requires { 2 ≤ length bytes.now }
    ensures { result ≡ value (take 16 (bits_of_bytes bytes.now)) }
{
    BigEndian::read_u16(bytes)
}

// The index in a packet at which its frame number begins, or `None` if it has no frame number.
fn number_place(packet: &[u8], id: u8) -> Option<usize>
    requires { first_fault packet.now ≡ None }
    ensures place { result ≡ number_place id packet.now }
    ensures there { IfSome result (λ place. place + 2 ≤ length packet.now) }
{
    let Ok(parts) = rtp_packet::read(packet) else {
        unreachable!()
    };
    let place = place_in_block(parts.profile?, parts.block, id)?;
    let csrcs = CSRC * usize::from(packet[0] % 16);
    Some(FIXED_HEADER + csrcs + EXTENSION_HEADER + place)
}

// The index in a header extension's block at which the frame number begins, or `None` if the block has no frame number.
fn place_in_block(profile: u16, block: &[u8], id: u8) -> Option<usize>
    ensures place { result ≡ place_by id (Some profile) block.now }
    ensures there { IfSome result (λ place. place + 2 ≤ length block.now) }
{
    let header = header_len(profile);
    let mut rest = block;
    while let Some((head, behind)) = rest.split_first() {
        if *head == 0 {
            rest = behind;
            continue;
        }
        let element = elements(profile, rest).next()?;
        if element.id == id {
            let place = block.len() - rest.len() + header + 1;
            return if element.value.len() >= MANDATORY {
                Some(place)
            } else {
                None
            };
        }
        let (_, later) = rest.split_at(header + element.value.len());
        rest = later;
    }
    None
}

// The length in bytes of an element's header, in the form that a profile selects (RFC 8285, sections 4.2 and 4.3).
fn header_len(profile: u16) -> usize
    ensures { result ≡ header_of profile }
{
    if profile == ONE_BYTE_PROFILE { 1 } else { 2 }
}
