// Reads a packet with the structure in force.

ghost use Rattle.std.specs.Prelude.{◌≡◌, ◌≤◌, ℕ, List, Option, Some, take, true};
ghost use Rattle.std.specs.Option.{option_copied};
ghost use Rattle.forwarding_model.specs.frames.Reading.{is_key_start, keeps_structure, obeys_structure, shown};
ghost use Rattle.dd_structure.specs.TemplateStructure.{TemplateStructure};
ghost use Rattle.dd_layout.specs.Layouts.{structures_alone};
ghost use Rattle.packet_format.specs.Formats.{said};
ghost use Rattle.dd_descriptor.specs.Seen.{content_of};
ghost use Rattle.packet_format.specs.Formats.{format_of};
ghost use Rattle.packet_format.specs.Packets.{packet_of};
ghost use Rattle.packet_format.specs.Shown.{HasDistances, IsOf, fault_shown, shows, showing_said};

use crate::look::{PayloadFlags, descriptor_bytes, payload_flags};
use dd_descriptor::{DdFault, Descriptor, NewestDescriptor};
use dd_structure::Structure;
use rtp_packet::Rtp;

/// The result of reading a packet, given the structure in force.
#[derive(Clone, Copy, Debug, PartialEq, Eq)]
pub enum Shown {
    /// The packet's descriptor carries no structure, and none is in force.
    LacksStructure,
    /// The packet's descriptor is missing or can't be parsed. Or the descriptor carries a structure that differs from the one in force, and the packet
    /// doesn't begin a key frame.
    Unread,
    /// The packet's descriptor was read, and the packet's payload has these flags.
    Shows(PayloadFlags),
}

/// Reads a packet. `force` is the structure in force. If the packet has a descriptor that can be parsed, `newest` has that descriptor afterwards.
/// Otherwise `newest` may have any contents.
pub fn show(
    packet: &Rtp<'_>,
    id: u8,
    force: Option<&Structure>,
    newest: &mut NewestDescriptor,
) -> Shown
    ensures references { shows result ≡ true → HasDistances newest.new }
    ensures shown { (bytes : List ℕ) → IsOf bytes packet.now
        → showing_said (option_copied force.entry) newest.new result ≡ shown (format_of id) (option_copied force.entry) (packet_of bytes).rest }
{
    let Some(element) = descriptor_bytes(packet, id) else {
        return Shown::Unread;
    };
    match newest.read(element, force) {
        Err(fault) => of_fault(fault),
        Ok(()) => {
            if obeys(newest.get(), force) {
                Shown::Shows(payload_flags(packet.payload))
            } else {
                Shown::Unread
            }
        }
    }
}

/// Returns the result of reading a packet whose descriptor has this fault.
fn of_fault(fault: DdFault) -> Shown
    ensures { result ≡ fault_shown fault }
{
    match fault {
        DdFault::NoStructure => Shown::LacksStructure,
        _ => Shown::Unread,
    }
}

/// Returns whether the descriptor obeys the structure rule: only the first packet of a key frame may carry a structure that differs from the one in force.
fn obeys(descriptor: &Descriptor, force: Option<&Structure>) -> bool
    requires { descriptor.now.ref_count ≤ 16 }
    ensures { result ≡ obeys_structure structures_alone (option_copied force.entry) (said (content_of (option_copied force.entry) descriptor.now)) }
{
    let key = begins_epoch(descriptor);
    match &descriptor.structure {
        None => true,
        Some(structure) => key || is_in_force(structure, force),
    }
}

fn is_in_force(structure: &Structure, force: Option<&Structure>) -> bool
    ensures { result ≡ keeps_structure structures_alone (option_copied force.entry) (Some structure.now) }
{
    match force {
        Some(current) => structure.same(current),
        None => false,
    }
}

/// Returns whether a descriptor begins a key frame. That is so if and only if the descriptor carries a structure, has start_of_frame set, and has no
/// references to other frames.
pub fn begins_epoch(descriptor: &Descriptor) -> bool
    requires { descriptor.now.ref_count ≤ 16 }
    ensures { (force : Option TemplateStructure) → result ≡ is_key_start (said (content_of force descriptor.now)) }
{
    descriptor.begins_key_frame()
}
