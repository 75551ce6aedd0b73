// The pipeline of one publisher's track.

ghost use Rattle.std.specs.Prelude.{◌≡◌, ◌≤◌, ◌<◌, ◌-◌, ◌^◌, ◌+◌, ◌∷◌, ◌↔◌, [], ℕ, true, IfOk, IfSome, IsOk, List, None, Some, OnErr, drop, length, map, option_copied, slice_get};
ghost use Rattle.reorder_window.specs.Due.{due_of};
ghost use Rattle.reorder_window.specs.Events.{Arrives, Event, Piece, Ticks};
ghost use Rattle.reorder_window.specs.Missing.{missing_sequences};
ghost use Rattle.rtp_packet.specs.Faults.{first_fault};
ghost use Rattle.rtp_packet.specs.Fields.{sequence_of};
ghost use Rattle.packet_format.specs.Packets.{packet_of};
ghost use Rattle.track_core.specs.Counts.{and_gone, counted_item, counted_made, counts_after};
ghost use Rattle.track_core.specs.Track.{HasKind, IsMadeValid, StandsFor, Stays, and_piece, first_refusal, frame_in, frames_packets, has_given, id_of, is_got, made_by, made_of, newest_after, newest_with, packets_of, refusal_of, refused, structure_after, structure_in, with_meaning};
ghost use Rattle.track_core.specs.Layers.{HasStood, IsAfter};
ghost use Rattle.track_core.specs.Pieces.{IsTaken, item_by};
ghost use Rattle.forwarding_model.specs.frames.Frames.{Item};
ghost use Rattle.std.specs.List.{AllByRecursion};
ghost use Rattle.std.specs.Option.{option_map};

use crate::counts::{Tally, TrackCounts};
use crate::layers::{Layers, work_off};
use dd_structure::Structure;
use frame_table::NO_MEANING;
use packet_slot::{PACKET_BYTES, PacketSlot};
use reorder_window::{Arrival, Item as OrderItem, Window};
use sfu_base::{FrameMeaning, Kind, NoMemory, Refusal, SeqList};
use std::alloc::Global;
use std::marker::Model;

/// The result of [`Track::step`], which processes one item.
#[derive(Clone, Copy, Debug)]
pub enum Made {
    /// No item waits.
    Idle,
    /// The item gave neither a packet nor a complete frame.
    Nothing,
    /// The item is a packet of a plain track.
    Packet,
    /// The item completed a frame of a layered track.
    Frame(FrameMeaning),
}

/// The result of [`Track::advance`]. It doesn't include the meaning of a frame, which the track keeps.
#[derive(Clone, Copy, Debug)]
pub enum Advance {
    /// No item waits.
    Idle,
    /// The item gave neither a packet nor a complete frame.
    Nothing,
    /// The item is a packet of a plain track.
    Packet,
    /// The item completed a frame of a layered track. [`Track::meaning`] returns the frame's meaning.
    Frame,
}

/// Processes the packets of one publisher's track, from their arrival until they are packets of a plain track or complete frames of a layered track.
/// Contracts see the SSRC, the reorder window with its waiting items, and the state of a layered track. Contracts also see the packets that the last
/// `advance` or `step` made, the meaning and the number of the last frame, and the counters.
#[derive(Drop)]
pub struct Track {
    ssrc: u32,
    window: Window,
    // The slot with the packet that is being processed, which came from the window. On a layered track, the frame under assembly may take this
    // slot and leave another one.
    slot: Box<PacketSlot>,
    layers: Option<Layers>,
    // Whether the last step made a packet or a frame.
    given: bool,
    // The meaning of the last frame made. A meaning has about 260 bytes, so it is written in place.
    meaning: FrameMeaning,
    // The number of the last frame made.
    newest: Option<u64>,
    // The counters since the publish.
    tally: Tally,
}

impl Model for Track {
    ghost use Rattle.track_core.specs.Track.{Seen};

    ghost Value = { Seen };

    ghost use Rattle.track_core.specs.Kept.{IsKept, seen};

    ghost view = { seen };

    ghost invariant = { IsKept };
}

impl Track {
    /// Returns a track before its first packet, or `NoMemory` if memory runs out. A packet after a gap is buffered until the gap is filled or given up. A
    /// gap is given up after `hold` milliseconds. No later call allocates memory.
    pub fn new(alloc: Global, kind: Kind, ssrc: u32, hold: u32) -> Result<Track, NoMemory>
        ensures stands { IfOk result (λ track. StandsFor track [] []) }
        ensures ssrc { IfOk result (λ track. track.ssrc ≡ ssrc) }
        ensures hold { IfOk result (λ track. track.window.hold ≡ hold) }
        ensures kind { IfOk result (λ track. HasKind track.layers kind) }
        ensures nothing { IfOk result (λ track. track.packets ≡ []) }
    {
        let layers = layers_of(alloc, kind)?;
        let window = Window::new(alloc, hold)?;
        let Ok(slot) = Box::new(alloc, PacketSlot::new()) else {
            return Err(NoMemory);
        };
        let tally = Tally::new();
        Ok(Track {
            ssrc,
            window,
            slot,
            layers,
            given: false,
            meaning: NO_MEANING,
            newest: None,
            tally,
        })
    }

    /// Accepts a packet that arrives at `moment`, in milliseconds. All waiting items must be processed before this call. When none is left,
    /// [`Track::advance`] returns `Idle`. The packets that the last `advance` or `step` made stay readable. If the packet is refused, nothing changes. The
    /// error is then the first of the following that applies. `TooBig`: the packet has more than 1,500 bytes. `Unreadable`: the bytes aren't an RTP packet.
    /// `WrongSsrc`: the packet's SSRC isn't that of the track. `Spent`: the unwrapped sequence number is 2^46 or more. `Late`: the unwrapped sequence
    /// number is below the lowest number for which the track still waits. `Repeat`: a packet with this sequence number is already buffered.
    pub fn arrive(&mut self, moment: u64, bytes: &[u8]) -> Result<(), Refusal>
        requires idle { self.old.window.waiting ≡ [] }
        requires length { length bytes.now ≤ 4294967295 }
        ensures refusal { refusal_of result ≡ first_refusal self.old.ssrc self.old.window.order bytes.now }
        ensures unchanged { OnErr result (self.new ≡ self.old) }
        ensures stands { (events : List Event) (worked : List Piece) → StandsFor self.old events worked → IsOk result
            → StandsFor self.new (Arrives (sequence_of bytes.now) moment bytes.now ∷ events) worked }
        ensures stays { Stays self.old self.new }
        ensures packets { self.new.packets ≡ self.old.packets }
    {
        if bytes.len() > PACKET_BYTES {
            return Err(Refusal::TooBig {
                len: bytes.len() as u32,
            });
        }
        let packet = match rtp_packet::read(bytes) {
            Ok(packet) => packet,
            Err(fault) => return Err(Refusal::Unreadable(fault)),
        };
        if packet.ssrc != self.ssrc {
            return Err(Refusal::WrongSsrc {
                got: packet.ssrc,
                wanted: self.ssrc,
            });
        }
        match self.window.arrive(packet.seq, moment, bytes) {
            Ok(()) => Ok(()),
            Err(why) => Err(refused(why)),
        }
    }

    /// Advances the track's time to `moment`, in milliseconds. If the packet after the lowest gap has been buffered for the hold time, the gap is given up.
    /// The same rule then applies to the next gap, and so on. All waiting items must be processed before this call. When none is left, [`Track::advance`]
    /// returns `Idle`. The packets that the last `advance` or `step` made stay readable.
    pub fn tick(&mut self, moment: u64)
        requires idle { self.old.window.waiting ≡ [] }
        ensures stands { (events : List Event) (worked : List Piece) → StandsFor self.old events worked → StandsFor self.new (Ticks moment ∷ events) worked }
        ensures stays { Stays self.old self.new }
        ensures packets { self.new.packets ≡ self.old.packets }
    {
        self.window.tick(moment);
    }

    /// Returns the earliest moment, in milliseconds, at which a tick gives up a gap. This is the moment at which the buffered packet with the lowest
    /// sequence number was buffered, plus the hold time. Returns `None` if no packet is buffered, or if the sum is 2^64 or more.
    pub fn due(&self) -> Option<u64>
        ensures { result ≡ due_of self.now.window.hold self.now.window.order }
    {
        self.window.due()
    }

    /// Replaces the contents of `out` with the missing sequence numbers, in ascending order of their unwrapped numbers.
    pub fn missing(&self, out: &mut SeqList)
        ensures { out.new ≡ missing_sequences self.now.window.order }
    {
        self.window.missing(out);
    }

    /// Returns the template dependency structure that is in force after the items processed so far. Returns `None` before the first key start, and on a
    /// plain track. A key start is the first packet of a key frame.
    pub fn force(&self) -> Option<&Structure>
        ensures kept { option_copied result ≡ structure_in self.now.layers }
        ensures stands { (events : List Event) (worked : List Piece) → StandsFor self.now events worked
            → option_copied result ≡ structure_after self.now.layers worked }
    {
        structure_of(&self.layers)
    }

    /// Returns the id of the header extension elements (RFC 8285) that hold the dependency descriptors of a layered track. Returns `None` for a plain
    /// track.
    pub fn id(&self) -> Option<u8>
        ensures { result ≡ option_map id_of self.now.layers }
    {
        match &self.layers {
            Some(layers) => Some(layers.id),
            None => None,
        }
    }

    /// Processes one item, if one waits. Returns `Idle` exactly if no item waits. After `Frame`, [`Track::meaning`] returns the frame's meaning.
    pub fn advance(&mut self) -> Advance
        ensures rest { self.new.window ≡ record self.old.window { waiting = drop 1 self.old.window.waiting } }
        ensures idle { (result ≡ Advance.Idle) ↔ (self.old.window.waiting ≡ []) }
        ensures stands { (events : List Event) (worked : List Piece) → StandsFor self.old events worked
            → StandsFor self.new events (and_piece worked (slice_get self.old.window.waiting 0)) }
        ensures made { (events : List Event) (worked : List Piece) → StandsFor self.old events worked
            → with_meaning self.new.meaning result ≡ made_of self.old.layers worked (slice_get self.old.window.waiting 0) }
        ensures packets { (events : List Event) (worked : List Piece) → StandsFor self.old events worked
            → self.new.packets ≡ packets_of self.old.layers worked (slice_get self.old.window.waiting 0) }
        ensures of_frame { (events : List Event) (worked : List Piece) → StandsFor self.old events worked
            → map packet_of self.new.packets ≡ frames_packets self.old.layers worked (slice_get self.old.window.waiting 0) }
        ensures one { result ≡ Advance.Packet → length self.new.packets ≡ 1 }
        ensures valid { IsMadeValid (with_meaning self.new.meaning result) }
        ensures stays { Stays self.old self.new }
    {
        self.given = false;
        let Some(item) = self.window.next_slot(&mut self.slot) else {
            return Advance::Idle;
        };
        let made = worked(
            &mut self.layers,
            is_packet(&item),
            &mut self.slot,
            &mut self.meaning,
        );
        note(
            &item,
            made,
            &self.meaning,
            &self.layers,
            &mut self.newest,
            &mut self.tally,
        );
        self.given = is_given(made);
        made
    }

    /// Processes one item like [`Track::advance`]. If the item makes a frame, also returns a copy of the frame's meaning.
    pub fn step(&mut self) -> Made
        ensures rest { self.new.window ≡ record self.old.window { waiting = drop 1 self.old.window.waiting } }
        ensures idle { (result ≡ Made.Idle) ↔ (self.old.window.waiting ≡ []) }
        ensures stands { (events : List Event) (worked : List Piece) → StandsFor self.old events worked
            → StandsFor self.new events (and_piece worked (slice_get self.old.window.waiting 0)) }
        ensures made { (events : List Event) (worked : List Piece) → StandsFor self.old events worked
            → result ≡ made_of self.old.layers worked (slice_get self.old.window.waiting 0) }
        ensures packets { (events : List Event) (worked : List Piece) → StandsFor self.old events worked
            → self.new.packets ≡ packets_of self.old.layers worked (slice_get self.old.window.waiting 0) }
        ensures of_frame { (events : List Event) (worked : List Piece) → StandsFor self.old events worked
            → map packet_of self.new.packets ≡ frames_packets self.old.layers worked (slice_get self.old.window.waiting 0) }
        ensures one { result ≡ Made.Packet → length self.new.packets ≡ 1 }
        ensures valid { IsMadeValid result }
        ensures stays { Stays self.old self.new }
    {
        let advance = self.advance();
        with_meaning(advance, self.meaning())
    }

    /// Returns the unwrapped number of the newest frame that the track has made. Returns `None` before the first frame, and on a plain track.
    pub fn newest_frame(&self) -> Option<u64>
        ensures { (events : List Event) (worked : List Piece) → StandsFor self.now events worked
            → result ≡ newest_after (option_map id_of self.now.layers) worked }
    {
        self.newest
    }

    /// Returns the track's counters, which cover all items processed so far. They count packets, sequence numbers that were given up, complete frames, key
    /// frames, and packets in no complete frame.
    pub fn counts(&self) -> TrackCounts
        ensures { (events : List Event) (worked : List Piece) → StandsFor self.now events worked
            → result ≡ counts_after (option_map id_of self.now.layers) worked }
    {
        self.tally.counts(self.layers.is_some())
    }

    /// Returns the meaning of the last frame that the track has made. Before the first frame, returns a placeholder.
    pub fn meaning(&self) -> &FrameMeaning
        ensures { result.now ≡ self.now.meaning }
    {
        &self.meaning
    }

    /// Returns the number of packets that the last `advance` or `step` made. If it made a packet of a plain track, the number is 1. If it made a frame, the
    /// number is that of the frame's packets, at most 512. Otherwise the number is 0.
    pub fn count(&self) -> u16
        ensures count { result ≡ length self.now.packets }
        ensures few { length self.now.packets ≤ 512 }
    {
        if !self.given {
            return 0;
        }
        match &self.layers {
            None => 1,
            Some(layers) => layers.assembly.count(),
        }
    }

    /// Returns the bytes of one of the packets that the last `advance` or `step` made. `place` is the packet's place among them, counted from 0. The bytes
    /// are an RTP packet of at most 1,500 bytes.
    pub fn packet(&self, place: u16) -> &[u8]
        requires { place < length self.now.packets }
        ensures at { slice_get self.now.packets place ≡ Some result.now }
        ensures reads { first_fault result.now ≡ None }
        ensures fits { length result.now ≤ 1500 }
    {
        self.lemma_are_taken();
        self.packet_at(place)
    }

    // A lemma, which does nothing at run time: each packet that the last step made was accepted.
    fn lemma_are_taken(&self)
        ensures { AllByRecursion IsTaken self.now.packets }
    {
        let _ = &self.given;
    }

    fn packet_at(&self, place: u16) -> &[u8]
        requires { place < length self.now.packets }
        ensures { slice_get self.now.packets place ≡ Some result.now }
    {
        match &self.layers {
            None => self.slot.bytes(),
            Some(layers) => layers.assembly.packet(place),
        }
    }
}

// The state of a layered track before its first item, or `None` for a plain track.
fn layers_of(alloc: Global, kind: Kind) -> Result<Option<Layers>, NoMemory>
    ensures stands { IfOk result (λ o. IfSome o (λ l. IsAfter l [])) }
    ensures newest { IfOk result (λ o. IfSome o (λ l. l.table.newest ≡ 0)) }
    ensures kind { IfOk result (λ o. HasKind o kind) }
{
    match kind {
        Kind::Plain => Ok(None),
        Kind::Layered { id } => Ok(Some(Layers::new(alloc, id)?)),
    }
}

// The structure in force, if the track is layered.
fn structure_of(layers: &Option<Layers>) -> Option<&Structure>
    ensures { option_copied result ≡ structure_in layers.now }
{
    match layers {
        Some(layers) => layers.table.force(),
        None => None,
    }
}

// Combines the result of an item with the frame's meaning that the track keeps.
fn with_meaning(advance: Advance, meaning: &FrameMeaning) -> Made
    ensures { result ≡ with_meaning meaning.now advance }
{
    match advance {
        Advance::Idle => Made::Idle,
        Advance::Nothing => Made::Nothing,
        Advance::Packet => Made::Packet,
        Advance::Frame => Made::Frame(*meaning),
    }
}

// Processes one item. If `came` is true, the item is the packet in `slot`; otherwise it is sequence numbers that were given up. On a plain
// track the packet stays in the slot.
fn worked(
    layers: &mut Option<Layers>,
    came: bool,
    slot: &mut Box<PacketSlot>,
    meaning: &mut FrameMeaning,
) -> Advance
    requires taken { came ≡ true → IsTaken slot.old.value }
    requires stood { IfSome layers.old HasStood }
    requires bound { IfSome layers.old (λ l. l.table.newest ≤ 2 ^ 63 - 131072) }
    ensures kind { option_map id_of layers.new ≡ option_map id_of layers.old }
    ensures plain { layers.old ≡ None → slot.new.value ≡ slot.old.value }
    ensures near { (n : ℕ) → IfSome layers.old (λ l. l.table.newest ≤ n) → IfSome layers.new (λ l. l.table.newest ≤ n + 131072) }
    ensures stands { (past : List Item) → IfSome layers.old (λ l. IsAfter l past) → IfSome layers.new (λ l. IsAfter l (item_by came slot.old.value ∷ past)) }
    ensures made { (past : List Item) → IfSome layers.old (λ l. IsAfter l past) → with_meaning meaning.new result ≡ made_by layers.old past came slot.old.value }
    ensures some { result ≡ Advance.Idle → ⊥ }
    ensures came { has_given result ≡ true → came ≡ true }
    ensures valid { IsMadeValid (with_meaning meaning.new result) }
{
    match layers {
        None => {
            if came {
                Advance::Packet
            } else {
                Advance::Nothing
            }
        }
        Some(layers) => {
            if work_off(layers, came, slot, meaning) {
                Advance::Frame
            } else {
                Advance::Nothing
            }
        }
    }
}

// Counts an item. If the item completed a frame, counts the frame too and stores its number as the newest.
#[inline(always)]
fn note(
    item: &OrderItem,
    made: Advance,
    meaning: &FrameMeaning,
    layers: &Option<Layers>,
    newest: &mut Option<u64>,
    tally: &mut Tally,
)
    requires arrived { tally.old.arrived < 2 ^ 63 }
    requires given_up { and_gone item.now tally.old.given_up < 2 ^ 63 }
    requires frames { tally.old.frames < 2 ^ 63 }
    requires key_frames { tally.old.key_frames < 2 ^ 63 }
    requires framed { tally.old.framed < 2 ^ 63 }
    ensures newest { newest.new ≡ newest_with (with_meaning meaning.now made) newest.old }
    ensures tally { tally.new ≡ counted_made (with_meaning meaning.now made) (length (frame_in layers.now)) (counted_item item.now tally.old) }
    ensures few { made ≡ Advance.Frame → length (frame_in layers.now) ≤ 512 }
{
    tally.add_item(item);
    if let Advance::Frame = made {
        *newest = Some(meaning.number);
        tally.add_frame(meaning.key, frame_count(layers));
    }
}

// How many packets are in the frame that the last item completed, or 0 if it completed none.
#[inline(always)]
fn frame_count(layers: &Option<Layers>) -> u16
    ensures count { result ≡ length (frame_in layers.now) }
    ensures few { result ≤ 512 }
{
    match layers {
        Some(layers) => layers.assembly.count(),
        None => 0,
    }
}

#[inline(always)]
fn is_given(made: Advance) -> bool
    ensures { result ≡ has_given made }
{
    match made {
        Advance::Packet | Advance::Frame => true,
        Advance::Idle | Advance::Nothing => false,
    }
}

#[inline(always)]
fn is_packet(item: &OrderItem) -> bool
    ensures { result ≡ is_got item.now }
{
    match item {
        OrderItem::Got { .. } => true,
        OrderItem::Gone { .. } => false,
    }
}

fn refused(why: Arrival) -> Refusal
    ensures { result ≡ refused why }
{
    match why {
        Arrival::Spent => Refusal::Spent,
        Arrival::Late { next } => Refusal::Late { next },
        Arrival::Repeat => Refusal::Repeat,
    }
}
