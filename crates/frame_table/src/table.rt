// The state that is in force on a track.

ghost use Rattle.std.specs.Prelude.{◌≡◌, ◌≤◌, ◌<◌, ◌+◌, ◌-◌, ◌^◌, IfSome, IfOk, Option, Some, is_some, option_copied, take, false, true};
ghost use Rattle.sfu_base.specs.Frame.{IsValid};
ghost use Rattle.forwarding_model.specs.frames.Frames.{no_force};
ghost use Rattle.forwarding_model.specs.frames.Reading.{is_key_start, keeps_structure};
ghost use Rattle.dd_structure.specs.Spelling.{IsWellFormed};
ghost use Rattle.dd_structure.specs.TemplateStructure.{TemplateStructure};
ghost use Rattle.dd_layout.specs.Layouts.{layout_of, structures_alone};
ghost use Rattle.frame_table.specs.Seen.{IsFirst, IsReadBy, IsMaskOf, answer, begun, masked, meant, numbered, said_of, seen_by};
ghost use Rattle.frame_table.specs.Heads.{HasReferences, head_of, meaning_at, meant_at, number_or_stale, numbered_at, written_or_stale};

use crate::fill::{
    filled_numbers, filled_pairs, prefix_distances, prefix_indications, prefix_numbers,
};
use dd_descriptor::Descriptor;
use dd_structure::Structure;
use sfu_base::{Dti, FrameMeaning, Wish};
use std::marker::Model;
use thiserror::Error;
use wrap_number::above;

/// How a descriptor relates to the structure in force.
#[derive(Clone, Copy, Debug, PartialEq, Eq)]
pub enum Reading {
    /// The descriptor begins a key frame. The descriptor's structure is now in force.
    Key,
    /// The descriptor doesn't begin a key frame, and is read with the structure in force.
    Part,
    /// The descriptor isn't read. It doesn't begin a key frame, and it carries a structure that differs from the structure in force.
    Unread,
}

/// A complete frame is ignored, because it isn't a key frame and its number isn't above the newest frame number (own rule). A number is above another
/// number if it is greater by 1 to 32,767, modulo 65,536.
#[derive(Clone, Copy, Debug, PartialEq, Eq, Error)]
#[error("the frame's number isn't above {newest}, the newest")]
pub struct Stale {
    /// The newest frame number.
    pub newest: u64,
}

/// The parts of a frame's first descriptor that are needed to make the frame's meaning. Each array is used from index 0 on: one entry for each decode
/// target, chain or reference. The remaining entries aren't used. The same is true of `FrameMeaning`.
#[derive(Clone, Copy, Debug, PartialEq, Eq)]
pub struct FrameHead {
    /// Whether the frame is a key frame: its first descriptor carries a structure and has no references.
    pub key: bool,
    /// The frame number modulo 65,536.
    pub number: u16,
    /// Spatial id, 0 to 3.
    pub spatial: u8,
    /// Temporal id, 0 to 7.
    pub temporal: u8,
    /// The frame's decode target indication (DTI) for each decode target.
    pub dtis: [Dti; 32],
    /// For each chain, the distance in frame numbers back to the chain's previous frame (frame_chain_fdiff). The distance is 0 if no previous frame is
    /// needed.
    pub links: [u8; 32],
    /// How many frames this frame refers to, at most 16.
    pub ref_count: u8,
    /// The distance in frame numbers back to each referenced frame, 1 to 4,096 (frame_fdiff).
    pub refs: [u16; 16],
}

/// The state that is in force on a layered track (RTP Payload Format For AV1, Appendix A). The rules for epochs and for stale numbers are own rules, which
/// aren't in that document.
#[derive(Debug, Drop)]
pub struct FrameTable {
    structure: Option<Structure>,
    // The targets and chains of the structure. The arrays are filled up as in a frame's meaning.
    target_count: u8,
    chain_count: u8,
    pairs: [Option<Wish>; 32],
    guards: [u8; 32],
    mask: u32,
    epoch: u64,
    start: u64,
    newest: u64,
}

/// A placeholder, to be overwritten with the meaning of a frame. No frame has the placeholder's meaning.
pub const NO_MEANING: FrameMeaning = FrameMeaning {
    number: 0,
    start: 0,
    epoch: 0,
    spatial: 0,
    temporal: 0,
    key: false,
    mask: 0,
    target_count: 0,
    dtis: [Dti::NotPresent; 32],
    pairs: [None; 32],
    chain_count: 0,
    guards: [0; 32],
    links: [0; 32],
    ref_count: 0,
    refs: [0; 16],
};

/// A frame number is above the newest frame number if it is 1 to this many numbers more, modulo 65,536. Any other number isn't above the newest.
const FARTHEST_AHEAD: u64 = 32767;

impl Model for FrameTable {
    ghost use Rattle.forwarding_model.specs.frames.Frames.{Force};
    ghost use Rattle.dd_structure.specs.TemplateStructure.{TemplateStructure};

    ghost Value = { Force TemplateStructure };

    ghost use Rattle.frame_table.specs.Kept.{IsKept, in_force};

    ghost view = { in_force };

    ghost invariant = { IsKept };
}

impl FrameTable {
    /// Returns the table of a track without a key start. Nothing is in force.
    pub fn new() -> FrameTable
        ensures { result ≡ no_force }
    {
        FrameTable {
            structure: None,
            target_count: 0,
            chain_count: 0,
            pairs: [None; 32],
            guards: [0; 32],
            mask: 0,
            epoch: 0,
            start: 0,
            newest: 0,
        }
    }

    /// The structure in force, or `None` before the first key start.
    pub fn force(&self) -> Option<&Structure>
        ensures { option_copied result ≡ self.now.structure }
    {
        self.structure.as_ref()
    }

    /// Processes the next descriptor, which was read with the structure in force. A key start is a descriptor with a structure, the start bit
    /// (start_of_frame) and no references. A key start puts its structure in force, begins an epoch, and sets the newest frame number. Any other descriptor
    /// is `Unread`, and changes nothing, if it carries a structure that differs from the structure in force. A mask in a descriptor that isn't `Unread` is
    /// in force from then on.
    pub fn see(&mut self, descriptor: &Descriptor) -> Reading
        requires read { IsReadBy self.old.structure descriptor.now }
        requires bound { IfSome self.old.structure (λ _. self.old.newest < 2 ^ 63) }
        ensures reading { result ≡ answer self.old descriptor.now }
        ensures force { self.new ≡ seen_by self.old descriptor.now }
        ensures near { self.new.newest ≤ self.old.newest + 65536 }
    {
        self.lemma_is_well_formed();
        let key = begins_epoch(descriptor);
        match &descriptor.structure {
            None => {
                self.take_mask(descriptor.mask);
                Reading::Part
            }
            Some(structure) => {
                if key {
                    self.begin_epoch(structure, descriptor.mask, descriptor.number);
                    return Reading::Key;
                }
                if !self.has(structure) {
                    return Reading::Unread;
                }
                self.take_mask(descriptor.mask);
                Reading::Part
            }
        }
    }

    /// Returns the meaning of a frame that has just become complete. `first` is the frame's first descriptor. Before this call, all descriptors of the
    /// frame must have been passed to [`FrameTable::see`], and none of them may have been `Unread`. The frame's number becomes the newest frame number. If
    /// the frame isn't a key frame and its number isn't above the newest frame number, the call returns `Stale` and changes nothing. This call does the
    /// same as [`FrameTable::head`] followed by [`FrameTable::whole_into`].
    pub fn whole(&mut self, first: &Descriptor) -> Result<FrameMeaning, Stale>
        requires first { IsFirst self.old first.now }
        requires bound { self.old.newest < 2 ^ 63 }
        ensures meaning { (s : TemplateStructure) → self.old.structure ≡ Some s → result ≡ meant s self.old first.now }
        ensures valid { IfOk result IsValid }
        ensures force { self.new ≡ numbered self.old first.now }
    {
        let newest = self.newest;
        let head = self.head(first);
        let mut meaning = NO_MEANING;
        let is_whole = self.whole_into(&head, &mut meaning);
        or_stale(is_whole, meaning, newest)
    }

    /// Returns the parts of a frame's first descriptor that are needed to make the frame's meaning. Until the frame is complete, only these parts must be
    /// kept.
    pub fn head(&self, first: &Descriptor) -> FrameHead
        requires { IsFirst self.now first.now }
        ensures head { result ≡ head_of (said_of self.now.structure first.now) }
        ensures references { HasReferences result }
    {
        self.lemma_is_well_formed();
        let key = begins_epoch(first);
        self.fields(first, key)
    }

    /// Writes the meaning of a frame that has just become complete to `out`, and returns true. The frame's number becomes the newest frame number.
    /// [`FrameTable::head`] made `head` from the frame's first descriptor. If the frame is stale, returns false and changes nothing. A frame is stale if it
    /// isn't a key frame and its number isn't above the newest frame number.
    pub fn whole_into(&mut self, head: &FrameHead, out: &mut FrameMeaning) -> bool
        requires structure { is_some self.old.structure ≡ true }
        requires references { HasReferences head.now }
        requires bound { self.old.newest < 2 ^ 63 }
        ensures meaning { (s : TemplateStructure) → self.old.structure ≡ Some s → written_or_stale result out.new self.old.newest
            ≡ meant_at s self.old head.now }
        ensures valid { result ≡ true → IsValid out.new }
        ensures untouched { result ≡ false → out.new ≡ out.old }
        ensures force { self.new ≡ numbered_at self.old head.now }
        ensures near { self.new.newest ≤ self.old.newest + 65536 }
    {
        let Ok(number) = self.number(head) else {
            return false;
        };
        self.newest = number;
        *out = self.meaning(number, head);
        true
    }

    // The head of a frame with this first descriptor. `key` says whether the descriptor is a key start.
    fn fields(&self, first: &Descriptor, key: bool) -> FrameHead
        requires first { IsFirst self.now first.now }
        requires key { key ≡ is_key_start (said_of self.now.structure first.now) }
        ensures { result ≡ head_of (said_of self.now.structure first.now) }
    {
        FrameHead {
            key,
            number: first.number,
            spatial: first.spatial,
            temporal: first.temporal,
            dtis: prefix_indications(&first.dtis, self.target_count),
            links: prefix_numbers(&first.links, self.chain_count),
            ref_count: first.ref_count,
            refs: prefix_distances(&first.refs, first.ref_count),
        }
    }

    // A lemma, which does nothing at run time: the structure in force is well-formed.
    fn lemma_is_well_formed(&self)
        ensures { IfSome self.now.structure IsWellFormed }
    {
        let _ = &self.structure;
    }

    // Puts the descriptor's mask in force, if it carries one.
    fn take_mask(&mut self, mask: Option<u32>)
        requires { IfSome self.old.structure (IsMaskOf mask) }
        ensures { self.new ≡ masked self.old mask }
    {
        if let Some(mask) = mask {
            self.mask = mask;
        }
    }

    // Begins an epoch at a key start that has this structure, mask and frame number.
    fn begin_epoch(&mut self, structure: &Structure, mask: Option<u32>, number: u16)
        requires mask { IsMaskOf mask structure.now }
        requires carried { is_some mask ≡ true }
        requires bound { IfSome self.old.structure (λ _. self.old.newest < 2 ^ 63) }
        ensures begun { self.new ≡ begun self.old structure.now mask number }
        ensures near { self.new.newest ≤ self.old.newest + 65536 }
    {
        let start = match &self.structure {
            None => u64::from(number),
            Some(_) => above(self.newest, number),
        };
        self.structure = Some(structure.copied());
        self.target_count = structure.target_count();
        self.chain_count = structure.chain_count();
        self.pairs = filled_pairs(structure);
        self.guards = filled_numbers(structure.guards());
        self.mask = mask.unwrap_or(0);
        self.epoch += 1;
        self.start = start;
        self.newest = start;
    }

    // Whether this structure is the one in force.
    fn has(&self, structure: &Structure) -> bool
        ensures { result ≡ keeps_structure structures_alone self.now.structure (Some structure.now) }
    {
        match &self.structure {
            Some(current) => structure.same(current),
            None => false,
        }
    }

    // The unwrapped number of a complete frame with this head, or `Stale` if it isn't above the newest.
    fn number(&self, head: &FrameHead) -> Result<u64, Stale>
        requires { self.now.newest < 2 ^ 63 }
        ensures number { result ≡ number_or_stale self.now head.now }
        ensures small { IfOk result (λ n. self.now.start ≤ n) }
        ensures near { IfOk result (λ n. n ≤ self.now.newest + 65536) }
    {
        if head.key {
            return Ok(self.start);
        }
        let number = above(self.newest, head.number);
        if number - self.newest > FARTHEST_AHEAD {
            return Err(Stale {
                newest: self.newest,
            });
        }
        Ok(number)
    }

    // The meaning of a frame with this unwrapped number and this head.
    fn meaning(&self, number: u64, head: &FrameHead) -> FrameMeaning
        requires references { HasReferences head.now }
        requires start { self.now.start ≤ number }
        ensures meaning { (s : TemplateStructure) → self.now.structure ≡ Some s → result ≡ meaning_at (layout_of s) self.now number head.now }
        ensures valid { is_some self.now.structure ≡ true → IsValid result }
    {
        FrameMeaning {
            number,
            start: self.start,
            epoch: self.epoch,
            spatial: head.spatial,
            temporal: head.temporal,
            key: head.key,
            mask: self.mask,
            target_count: self.target_count,
            dtis: head.dtis,
            pairs: self.pairs,
            chain_count: self.chain_count,
            guards: self.guards,
            links: head.links,
            ref_count: head.ref_count,
            refs: head.refs,
        }
    }
}

// The meaning if `is_whole` is true, otherwise `Stale`.
fn or_stale(is_whole: bool, meaning: FrameMeaning, newest: u64) -> Result<FrameMeaning, Stale>
    requires { is_whole ≡ true → IsValid meaning }
    ensures result { result ≡ written_or_stale is_whole meaning newest }
    ensures valid { IfOk result IsValid }
{
    if is_whole {
        Ok(meaning)
    } else {
        Err(Stale { newest })
    }
}

// Whether a descriptor begins a key frame, and so an epoch.
fn begins_epoch(descriptor: &Descriptor) -> bool
    requires { descriptor.now.ref_count ≤ 16 }
    ensures { (force : Option TemplateStructure) → result ≡ is_key_start (said_of force descriptor.now) }
{
    descriptor.begins_key_frame()
}
