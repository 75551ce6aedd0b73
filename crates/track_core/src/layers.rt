// Processes the packets of a layered track after they were put in order.

ghost use Rattle.std.specs.Prelude.{◌≡◌, ◌≤◌, ◌<◌, ◌+◌, ◌-◌, ◌^◌, ◌∷◌, [], true, false, IfOk, IfSome, List, ℕ, is_some};
ghost use Rattle.sfu_base.specs.Frame.{IsValid};
ghost use Rattle.forwarding_model.specs.frames.Cuts.{Mark as CutMark, Part};
ghost use Rattle.forwarding_model.specs.frames.Frames.{Item, ReadPacket};
ghost use Rattle.forwarding_model.specs.frames.Frames.Item.{Missing, Arrived};
ghost use Rattle.dd_structure.specs.TemplateStructure.{TemplateStructure};
ghost use Rattle.frame_assembly.specs.Assembled.{marked};
ghost use Rattle.packet_format.specs.Packets.{packet_of};
ghost use Rattle.packet_format.specs.Shown.{IsOf};
ghost use Rattle.track_core.specs.Layers.{HasStood, IsAfter, IsHeadOf, IsPushable, IsRunning, Looked, Pushed, StartsAs, meaning_made, sent_of, starts, written};
ghost use Rattle.track_core.specs.Mapped.{mark_with};
ghost use Rattle.track_core.specs.Pieces.{IsTaken, item_by};
ghost use Rattle.frame_table.specs.Seen.{IsFirst};

use dd_descriptor::{Descriptor, NewestDescriptor};
use frame_assembly::{Assembly, Mark, Outcome};
use frame_table::{FrameHead, FrameTable, Reading};
use packet_format::{PayloadFlags, descriptor_bytes, payload_flags};
use packet_slot::PacketSlot;
use rtp_packet::Rtp;
use sfu_base::{Dti, FrameMeaning, NoMemory};
use std::alloc::Global;

/// The state of a layered track between two items. `id` is the header extension id (RFC 8285) of the descriptors. `table` holds the structure, mask and
/// epoch in force. `assembly` holds the frame under assembly. `head` holds the parts of that frame's first descriptor from which the frame's meaning is
/// made. `newest` is working memory of the descriptor parser.
#[derive(Drop)]
pub struct Layers {
    pub id: u8,
    pub table: FrameTable,
    pub assembly: Assembly,
    pub head: FrameHead,
    pub newest: NewestDescriptor,
}

const NO_HEAD: FrameHead = FrameHead {
    key: false,
    number: 0,
    spatial: 0,
    temporal: 0,
    dtis: [Dti::NotPresent; 32],
    links: [0; 32],
    ref_count: 0,
    refs: [0; 16],
};

impl Layers {
    /// Returns the state of a layered track before its first packet. `id` is the header extension id of the track's descriptors. Allocates the memory for
    /// the frame under assembly, or returns `NoMemory`.
    pub fn new(alloc: Global, id: u8) -> Result<Layers, NoMemory>
        ensures id { IfOk result (λ layers. layers.id ≡ id) }
        ensures stands { IfOk result (λ layers. IsAfter layers []) }
        ensures newest { IfOk result (λ layers. layers.table.newest ≡ 0) }
    {
        Ok(Layers {
            id,
            table: FrameTable::new(),
            assembly: Assembly::new(alloc)?,
            head: NO_HEAD,
            newest: NewestDescriptor::new(),
        })
    }

    /// Processes sequence numbers that were given up. If there is a frame under assembly, it can't become complete any more, and is dropped.
    pub fn give_up(&mut self)
        ensures id { self.new.id ≡ self.old.id }
        ensures near { self.new.table.newest ≤ self.old.table.newest }
        ensures stands { (past : List Item) → IsAfter self.old past → IsAfter self.new (Missing ∷ past) }
    {
        let _ = self.assembly.push(&Mark::Gone, &[]);
    }

    /// Processes the next packet, which is in `slot`. The assembly may keep the packet's slot. It then puts another slot into `slot`. If the packet
    /// completes a frame, returns true and writes the frame's meaning to `meaning`.
    pub fn take(&mut self, slot: &mut Box<PacketSlot>, meaning: &mut FrameMeaning) -> bool
        requires taken { IsTaken slot.old.value }
        requires stood { HasStood self.old }
        requires bound { self.old.table.newest ≤ 2 ^ 63 - 131072 }
        ensures id { self.new.id ≡ self.old.id }
        ensures stands { (past : List Item) → IsAfter self.old past → IsAfter self.new (Arrived (packet_of slot.old.value) ∷ past) }
        ensures near { self.new.table.newest ≤ self.old.table.newest + 131072 }
        ensures made { (past : List Item) → IsAfter self.old past
            → written result meaning.new ≡ meaning_made self.old.id past (Arrived (packet_of slot.old.value)) }
        ensures valid { IfSome (written result meaning.new) IsValid }
    {
        let mark = self.read(slot);
        self.push(&mark, slot, meaning)
    }

    // Returns the mark of an accepted packet, the input for the assembly of frames.
    fn read(&mut self, slot: &Box<PacketSlot>) -> Mark
        requires taken { IsTaken slot.now.value }
        requires bound { self.old.table.newest ≤ 2 ^ 63 - 131072 }
        ensures looked { Looked self.old.id self.old.table self.new.table self.new.newest result slot.now.value }
        ensures near { self.new.table.newest ≤ self.old.table.newest + 65536 }
        ensures id { self.new.id ≡ self.old.id }
        ensures assembly { self.new.assembly ≡ self.old.assembly }
        ensures head { self.new.head ≡ self.old.head }
    {
        let bytes = slot.bytes();
        match rtp_packet::read(bytes) {
            Ok(packet) => self.look(&packet, bytes),
            // The track accepts only valid RTP.
            Err(_) => unreachable!(),
        }
    }

    // Returns the mark of a packet. If the descriptor can be read, the table of what is in force is updated.
    fn look(&mut self, packet: &Rtp<'_>, bytes: &[u8]) -> Mark
        requires packet { IsOf bytes.now packet.now }
        requires bound { self.old.table.newest ≤ 2 ^ 63 - 131072 }
        ensures looked { Looked self.old.id self.old.table self.new.table self.new.newest result bytes.now }
        ensures near { self.new.table.newest ≤ self.old.table.newest + 65536 }
        ensures id { self.new.id ≡ self.old.id }
        ensures assembly { self.new.assembly ≡ self.old.assembly }
        ensures head { self.new.head ≡ self.old.head }
    {
        let flags = payload_flags(packet.payload);
        if let PayloadFlags::Empty = flags {
            return Mark::Pad;
        }
        let Some(element) = descriptor_bytes(packet, self.id) else {
            return Mark::Unread;
        };
        if self.newest.read(element, self.table.force()).is_err() {
            return Mark::Unread;
        }
        let newest = self.newest.get();
        if let Reading::Unread = self.table.see(newest) {
            return Mark::Unread;
        }
        match flags {
            PayloadFlags::Elements { continues, carries } => Mark::Part {
                start: newest.start,
                end: newest.end,
                number: newest.number,
                continues,
                carries,
            },
            _ => Mark::Unread,
        }
    }

    // Pushes a packet with its mark onto the frame under assembly. Returns whether the packet completed a frame.
    fn push(&mut self, mark: &Mark, slot: &mut Box<PacketSlot>, meaning: &mut FrameMeaning) -> bool
        requires bound { self.old.table.newest < 2 ^ 63 }
        requires pushable { IsPushable self.old mark.now slot.old.value }
        ensures id { self.new.id ≡ self.old.id }
        ensures near { self.new.table.newest ≤ self.old.table.newest + 65536 }
        ensures pushed { (marks : List (CutMark (ReadPacket TemplateStructure))) (m : CutMark (ReadPacket TemplateStructure)) → IsRunning self.old marks
            → marked mark.now slot.old.value ≡ mark_with sent_of m → StartsAs self.old.table self.old.newest m
            → Pushed self.old self.new (written result meaning.new) marks m }
        ensures valid { IfSome (written result meaning.new) IsValid }
    {
        keep_head(mark, &self.table, self.newest.get(), &mut self.head);
        match self.assembly.push_slot(mark, slot) {
            Outcome::Whole => self.table.whole_into(&self.head, meaning),
            _ => false,
        }
    }
}

// If the mark starts a frame, replaces `head` with the head of the newest descriptor.
fn keep_head(mark: &Mark, table: &FrameTable, newest: &Descriptor, head: &mut FrameHead)
    requires { starts mark.now ≡ true → IsFirst table.now newest.now }
    ensures started { starts mark.now ≡ true → IsHeadOf table.now newest.now head.new }
    ensures kept { starts mark.now ≡ false → head.new ≡ head.old }
{
    if is_start(mark) {
        *head = table.head(newest);
    }
}

/// Processes one item of a layered track. If `came` is true, the item is the packet in `slot`. If `came` is false, the item is a gap: sequence numbers that
/// were given up. If the item completes a frame, returns true and writes the frame's meaning to `meaning`.
pub fn work_off(
    layers: &mut Layers,
    came: bool,
    slot: &mut Box<PacketSlot>,
    meaning: &mut FrameMeaning,
) -> bool
    requires taken { came ≡ true → IsTaken slot.old.value }
    requires stood { HasStood layers.old }
    requires bound { layers.old.table.newest ≤ 2 ^ 63 - 131072 }
    ensures id { layers.new.id ≡ layers.old.id }
    ensures near { layers.new.table.newest ≤ layers.old.table.newest + 131072 }
    ensures stands { (past : List Item) → IsAfter layers.old past → IsAfter layers.new (item_by came slot.old.value ∷ past) }
    ensures made { (past : List Item) → IsAfter layers.old past
        → written result meaning.new ≡ meaning_made layers.old.id past (item_by came slot.old.value) }
    ensures valid { IfSome (written result meaning.new) IsValid }
    ensures came { result ≡ true → came ≡ true }
{
    if !came {
        layers.give_up();
        return false;
    }
    layers.take(slot, meaning)
}

// Whether a mark begins a frame.
fn is_start(mark: &Mark) -> bool
    ensures { result ≡ starts mark.now }
{
    match mark {
        Mark::Part { start, .. } => *start,
        _ => false,
    }
}
