// What is the same for all subscribers of a frame's track, computed once per frame.
ghost use Rattle.std.specs.Prelude.{◌≡◌, ◌≤◌, ◌<◌, ◌==◌, ◌^◌, ◌||◌, ◌&&◌, ℕ, List, None, Some, true, false};
ghost use Rattle.std.specs.Int.{bit_at};
ghost use Rattle.std.specs.List.{list_all};
ghost use Rattle.sfu_base.specs.Frame.{IsValid};
ghost use Rattle.forwarding_model.specs.forwarding.Outgoing.{is_top_layer};
ghost use Rattle.forwarding_model.specs.forwarding.Selection.{can_open, has_capacity, is_present_in, is_upgrade, missing_reference, opened_or};
ghost use Rattle.forwarding_model.specs.forwarding.Targets.{aim, best, is_present, references};
ghost use Rattle.ref_window.specs.Numbers.{AreBelow, has_below};
ghost use Rattle.target_selector.specs.Masks.{mask_for, targets_where};
ghost use Rattle.target_selector.specs.Offers.{AreNeeded, IsBegun, begins, begins_within, everything, needed_bit, says_begin};
ghost use Rattle.target_selector.specs.Targets.{IsBelow, IsIndexBelow};

use crate::frame_targets::{
    best_of, is_allowed, is_better, is_within, layers_in, mask_within, with_target,
};
use crate::withheld::has_capacity;
use forwarding_model::CurrentTarget;
use sfu_base::{Dti, FrameMeaning, Wish};
use std::marker::Model;

// How many decode targets a frame may have.
const TARGETS: u8 = 32;

// The wish that allows all layers.
const EVERYTHING: Wish = Wish {
    spatial: u8::MAX,
    temporal: u8::MAX,
};

/// The active targets that a decoder can begin to decode at a frame, and the best of them.
#[derive(Clone, Copy, Debug)]
pub struct Begun {
    pub targets: u32,
    pub top: Option<u8>,
}

/// A frame and its number of packets, with values that are the same for all subscribers of its track. These values are the distances of the frame's
/// references, the targets that a decoder can begin to decode at the frame, and the best of these targets. An offer is made once per frame. Contracts
/// see the frame and the number of packets.
#[derive(Debug, Drop)]
pub struct FrameOffer<'a> {
    frame: &'a FrameMeaning,
    packets: u16,
    // a mask of the distances of its references; bit 0 stands for each distance of 64 or more
    needed: u64,
    begun: Begun,
}

impl<'a> Model for FrameOffer<'a> {
    ghost use Rattle.target_selector.specs.Offers.{Offered, IsOfferOf};

    ghost Value = { Offered };

    ghost view = { λ o. record { frame = o.frame.now; packets = o.packets } };

    ghost invariant = { λ o. IsOfferOf o.frame.now o.needed o.begun };
}

impl<'a> FrameOffer<'a> {
    /// Returns the offer of a frame that has `packets` packets.
    pub fn new(frame: &'a FrameMeaning, packets: u16) -> FrameOffer<'a>
        requires { IsValid frame.now }
        ensures { result ≡ record { frame = frame.now; packets = packets } }
    {
        FrameOffer {
            frame,
            packets,
            needed: distances(frame),
            begun: begun_at(frame),
        }
    }

    /// Returns the frame.
    pub fn frame(&self) -> &FrameMeaning
        ensures frame { result.now ≡ self.now.frame }
        ensures valid { IsValid self.now.frame }
    {
        self.frame
    }

    /// Returns the frame's number.
    pub fn number(&self) -> u64
        ensures { result ≡ self.now.frame.number }
    {
        self.frame.number
    }

    /// Returns the number of packets that the frame has.
    pub fn packets(&self) -> u16
        ensures { result ≡ self.now.packets }
    {
        self.packets
    }

    /// Returns whether all references of the frame are in `passed`, a mask of the frames passed to a subscriber. Bit d of the mask, for d from 1 to
    /// 63, stands for the frame whose number is d below this frame's number. Bit 0 stands for no frame. If a reference is 64 or more below, the
    /// result is true only if bit 0 is 1.
    pub fn refers_within(&self, passed: u64) -> bool
        ensures valid { IsValid self.now.frame }
        ensures exact { result ≡ list_all (λ distance. bit_at passed (needed_bit distance) == 1) (references self.now.frame) }
        ensures passed { (numbers : List ℕ) → AreBelow numbers self.now.frame.number passed → result ≡ true
            → missing_reference (has_below numbers self.now.frame.number) self.now.frame ≡ None }
    {
        self.needed & passed == self.needed
    }

    /// Returns the target that the frame opens for `wish` in place of the current target: the best one that it can open. Returns `None` if it can
    /// open none. `complete` says whether all references of the frame were passed to the subscriber. `key_passed` says whether a key frame of the
    /// frame's epoch was passed.
    pub fn opening(
        &self,
        wish: Wish,
        complete: bool,
        key_passed: bool,
        current: &CurrentTarget,
    ) -> Option<u8>
        requires { IsIndexBelow 32 current.now }
        ensures value { result ≡ best self.now.frame (can_open wish complete (self.now.frame.key || key_passed) self.now.frame current.now) }
        ensures below { IsBelow 32 result }
    {
        // Most frames begin no target.
        let top = self.begun.top?;
        if !self.is_ready(complete, key_passed) {
            return None;
        }
        let best = self.best_within(wish, top)?;
        self.is_upgrade(wish, *current, best).then_some(best)
    }

    fn is_ready(&self, complete: bool, key_passed: bool) -> bool
        ensures { result ≡ (complete && (self.now.frame.key || key_passed)) }
    {
        complete && (self.frame.key || key_passed)
    }

    // Returns the best target within the wish that a decoder can begin at this frame. In most cases it is `top`, the best of all.
    fn best_within(&self, wish: Wish, top: u8) -> Option<u8>
        requires top { Some top ≡ best self.now.frame (begins_within everything self.now.frame) }
        requires small { top < 32 }
        ensures value { result ≡ best self.now.frame (begins_within wish self.now.frame) }
        ensures below { IsBelow 32 result }
    {
        // Reading the fields lets the checker know their ranges.
        let Wish { .. } = wish;
        let pairs = &self.frame.pairs;
        if is_within(wish, layers_in(pairs, top)) {
            Some(top)
        } else {
            best_of(wish, self.begun.targets, self.frame.target_count, pairs)
        }
    }

    // Returns whether `chosen`, the best target that begins, replaces the current one: no target is open, the open one isn't allowed, or `chosen` is better.
    fn is_upgrade(&self, wish: Wish, current: CurrentTarget, chosen: u8) -> bool
        requires best { Some chosen ≡ best self.now.frame (begins_within wish self.now.frame) }
        requires below { chosen < 32 }
        requires index { IsIndexBelow 32 current }
        ensures { result ≡ is_upgrade wish self.now.frame current chosen }
    {
        match current {
            CurrentTarget::Open { index, opened: _ } => {
                index != chosen
                    && (!is_allowed(wish, self.frame.mask, &self.frame.pairs, index)
                        || is_better(&self.frame.pairs, chosen, index))
            }
            CurrentTarget::Closed { reason: _ } => true,
        }
    }

    /// Of the frame's targets that the wish allows, returns the best one. Returns `None` if the wish allows none.
    pub fn aim(&self, wish: Wish) -> Option<u8>
        ensures { result ≡ aim wish self.now.frame }
    {
        let frame = self.frame;
        best_of(wish, frame.mask, frame.target_count, &frame.pairs)
    }

    /// Returns whether the frame belongs to the target.
    pub fn is_present(&self, target: u8) -> bool
        ensures { result ≡ is_present self.now.frame target }
    {
        target < self.frame.target_count && self.frame.dtis[usize::from(target)] != Dti::NotPresent
    }

    /// Returns whether the frame passes. All its references must have been passed, and its packets must fit in the queue. The frame must also belong
    /// to `opening`, the target that it opens. If it opens none, it must belong to the open target.
    pub fn passes(
        &self,
        opening: Option<u8>,
        current: &CurrentTarget,
        complete: bool,
        queued: u16,
    ) -> bool
        ensures { result ≡ (is_present_in self.now.frame (opened_or self.now.frame opening current.now) && (complete && has_capacity queued self.now.packets)) }
    {
        complete && self.is_present_in(opening, *current) && has_capacity(self.packets, queued)
    }

    fn is_present_in(&self, opening: Option<u8>, current: CurrentTarget) -> bool
        ensures { result ≡ is_present_in self.now.frame (opened_or self.now.frame opening current) }
    {
        match (opening, current) {
            (Some(index), _) => self.is_present(index),
            (None, CurrentTarget::Open { index, opened: _ }) => self.is_present(index),
            (None, CurrentTarget::Closed { reason: _ }) => false,
        }
    }

    /// Returns whether a target is open and the frame's spatial id is the highest one of that target.
    pub fn is_top_layer(&self, current: CurrentTarget) -> bool
        requires { IsIndexBelow 32 current }
        ensures { result ≡ is_top_layer self.now.frame current }
    {
        match current {
            CurrentTarget::Open { index, opened: _ } => match layers_in(&self.frame.pairs, index) {
                None => false,
                Some(pair) => self.frame.spatial == pair.spatial,
            },
            CurrentTarget::Closed { reason: _ } => false,
        }
    }

    /// Returns the mask of decode targets that a subscriber of `target` receives with the frame. It has the targets of the frame's mask whose layers
    /// are at most those of `target`. Bit i stands for target i, and bit 0 is the lowest. Without a target the mask is 0.
    #[inline(never)]
    pub fn mask_for(&self, target: Option<u8>) -> u32
        requires { IsBelow 32 target }
        ensures { result ≡ mask_for self.now.frame target }
    {
        let Some(target) = target else {
            return 0;
        };
        let frame = self.frame;
        match layers_in(&frame.pairs, target) {
            Some(most) => mask_within(most, frame.mask, frame.target_count, &frame.pairs),
            None => 0,
        }
    }
}

// Returns the distances of the frame's references, as a mask. Bit 0 stands in for a distance of 64 or more.
fn distances(frame: &FrameMeaning) -> u64
    requires { IsValid frame.now }
    ensures { AreNeeded result (references frame.now) }
{
    let mut needed = 0;
    for place in 0..frame.ref_count {
        needed |= distance_bit(frame.refs[usize::from(place)]);
    }
    needed
}

fn distance_bit(distance: u16) -> u64
    ensures { result ≡ 2 ^ needed_bit distance }
{
    if distance < 64 { 1 << distance } else { 1 }
}

fn begun_at(frame: &FrameMeaning) -> Begun
    requires { IsValid frame.now }
    ensures { IsBegun frame.now result }
{
    if begins_some(frame) {
        begun_some(frame)
    } else {
        Begun {
            targets: 0,
            top: None,
        }
    }
}

#[inline(always)]
fn begun_some(frame: &FrameMeaning) -> Begun
    requires { IsValid frame.now }
    ensures { IsBegun frame.now result }
{
    let targets = frame.mask & beginnings(frame);
    Begun {
        targets,
        top: best_of(EVERYTHING, targets, frame.target_count, &frame.pairs),
    }
}

// Returns whether the frame is a key frame, or a switch for some target. The loop visits all 32 targets, so that the compiler compares several at once.
#[inline(always)]
fn begins_some(frame: &FrameMeaning) -> bool
    ensures { (target : ℕ) → target < 32 → result ≡ false → begins frame.now target ≡ false }
{
    let mut begins = frame.key;
    for target in 0..TARGETS {
        begins |= frame.dtis[usize::from(target)] == Dti::Switch;
    }
    begins
}

// Returns the targets of the frame, active or not, that a decoder can begin at it.
fn beginnings(frame: &FrameMeaning) -> u32
    requires { frame.now.target_count ≤ 32 }
    ensures { result ≡ targets_where (says_begin frame.now) frame.now.target_count }
{
    let mut ones = 0;
    for target in 0..frame.target_count {
        ones = with_target(ones, target, says_begin(frame, target));
    }
    ones
}

// Returns whether the frame is a switch for the target, or a key frame that belongs to the target.
fn says_begin(frame: &FrameMeaning, target: u8) -> bool
    requires { target < 32 }
    ensures { result ≡ says_begin frame.now target }
{
    let dti = frame.dtis[usize::from(target)];
    dti == Dti::Switch || (frame.key && dti != Dti::NotPresent)
}
