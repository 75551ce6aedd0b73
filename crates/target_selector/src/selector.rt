// The part of a subscriber's state that decides on frames.
ghost use Rattle.std.specs.Prelude.{◌≡◌, ◌+◌, ◌≤◌, ◌||◌, ◌&&◌, ◌∷◌, Option, Some, false};
ghost use Rattle.std.specs.Option.{option_map};
ghost use Rattle.sfu_base.specs.declared.frame.FrameMeaning.{FrameMeaning as Meaning};
ghost use Rattle.sfu_base.specs.Frame.{IsValid};
ghost use Rattle.sfu_base.specs.declared.frame.Verdict.TheVariants.{Passed};
ghost use Rattle.forwarding_model.specs.forwarding.Outgoing.{is_top_layer};
ghost use Rattle.forwarding_model.specs.forwarding.Selection.{open_target, opened_or};
ghost use Rattle.forwarding_model.specs.forwarding.Standing.{Standing, after_frame, candidate_at, joined, verdict_at};
ghost use Rattle.ref_window.specs.Numbers.{AreBelow, IsAboveAll as IsAboveAllNumbers, held_of};
ghost use Rattle.target_selector.specs.Reaching.{is_aimed, reaches, target_layers, targets_of};
ghost use Rattle.target_selector.specs.Seen.{begun};
ghost use Rattle.target_selector.specs.Stands.{IsAboveAll, IsAdmitted, KeepsAt, StandsAt, StandsFor, is_opening_at, is_something};
ghost use Rattle.target_selector.specs.Targets.{IsBelow, IsIndexBelow};

use crate::frame_offer::FrameOffer;
use crate::frame_targets::{FrameTargets, NO_TARGETS, best_of, layers_in};
use crate::passed_frames::{close, missing_reference, stays};
use crate::withheld::withheld;
use forwarding_model::{CurrentTarget, Reason};
use ref_window::RefWindow;
use sfu_base::{FrameMeaning, Verdict, Wish};
use std::marker::Model;

/// Decides which frames a subscriber is sent. Contracts see the wish, the epoch, the open target or the reason why none is open, and the last frame's
/// targets. They see the passed frames of the epoch to which a later frame can refer. They also see what [`Selector::marks_last`] and
/// [`Selector::opened`] return.
#[derive(Debug, Drop)]
pub struct Selector {
    wish: Wish,
    epoch: Option<u64>,
    target: CurrentTarget,
    // whether a key frame of the epoch was passed; the window may have forgotten it
    key_passed: bool,
    passed: RefWindow,
    // the targets of the last frame, for later questions; without meaning before the first frame
    newest: FrameTargets,
    top: bool,
    opened: bool,
}

impl Model for Selector {
    ghost use Rattle.target_selector.specs.Seen.{IsKept, Seen, newest_of};

    ghost Value = { Seen };

    ghost view = { λ s. record {
      wish = s.wish;
      epoch = s.epoch;
      target = s.target;
      key_passed = s.key_passed;
      numbers = s.passed;
      newest = newest_of s.epoch s.newest;
      top = s.top;
      opened = s.opened;
    } };

    ghost invariant = { λ s. IsKept s.target s.newest };
}

impl Selector {
    /// Returns the selector of a subscriber that has just joined with this wish. No target is open.
    pub fn new(wish: Wish) -> Selector
        ensures begun { result ≡ begun wish }
        ensures stands { StandsFor result (joined wish) }
    {
        let reason = Reason::NotOpened { since: 0 };
        Selector {
            wish,
            epoch: None,
            target: CurrentTarget::Closed { reason },
            key_passed: false,
            passed: RefWindow::new(),
            newest: NO_TARGETS,
            top: false,
            opened: false,
        }
    }

    /// Changes the wish. The new wish applies from the next frame on. An open target stays open.
    pub fn aim(&mut self, wish: Wish)
        ensures wish { self.new ≡ record self.old { wish = wish } }
        ensures stands { (s : Standing) → StandsFor self.old s → StandsFor self.new (record s { wish = wish }) }
    {
        self.wish = wish;
    }

    /// Returns the open target, or `None` if no target is open.
    pub fn target(&self) -> Option<u8>
        ensures target { result ≡ open_target self.now.target }
        ensures few { IsBelow 32 result }
        ensures stands { (s : Standing) → StandsFor self.now s → result ≡ open_target s.target }
    {
        match self.target {
            CurrentTarget::Open { index, opened: _ } => Some(index),
            CurrentTarget::Closed { reason: _ } => None,
        }
    }

    /// Returns the layers of the open target at the last frame. Returns `None` if no target
    /// is open, or if no template of that frame's structure is present in the target.
    pub fn target_layers(&self) -> Option<Wish>
        ensures layers { (newest : Option Meaning) → self.now.newest ≡ option_map targets_of newest → result ≡ target_layers newest self.now.target }
    {
        match (self.epoch, self.target) {
            (Some(_), CurrentTarget::Open { index, .. }) => layers_in(&self.newest.pairs, index),
            _ => None,
        }
    }

    /// Returns whether the open target is the best that the wish allows at the last frame. Returns false if no target is open.
    #[tactic(auto, using(crate::proofs::Bests::reaches_kept))]
    pub fn reaches_wish(&self) -> bool
        ensures reaches { (newest : Option Meaning) → self.now.newest ≡ option_map targets_of newest → result ≡ reaches newest self.now.wish self.now.target }
    {
        let FrameTargets { count, mask, pairs } = &self.newest;
        self.epoch.is_some() && is_aimed(best_of(self.wish, *mask, *count, pairs), self.target)
    }

    /// Returns the verdict on a frame of `packets` packets while `queued` packets are queued: `Passed`, or why the frame is withheld.
    pub fn admit(&mut self, frame: &FrameMeaning, packets: u16, queued: u16) -> Verdict
        requires { IsValid frame.now }
        ensures verdict { (s : Standing) → StandsFor self.old s → IsAboveAll frame.now s → s.queued ≡ queued → result ≡ verdict_at s frame.now packets }
        ensures stands { (s : Standing) → StandsFor self.old s → IsAboveAll frame.now s → s.queued ≡ queued
            → StandsFor self.new (after_frame s frame.now packets) }
        ensures capacity { result ≡ Passed → queued + packets ≤ 512 }
        ensures top { (s : Standing) → StandsFor self.old s → IsAboveAll frame.now s → s.queued ≡ queued → result ≡ Passed
            → self.new.top ≡ is_top_layer frame.now (candidate_at s frame.now) }
        ensures opened { (s : Standing) → StandsFor self.old s → IsAboveAll frame.now s → s.queued ≡ queued → result ≡ Passed
            → self.new.opened ≡ is_opening_at s frame.now }
        ensures not_top { (result ≡ Passed → ⊥) → self.new.top ≡ false }
        ensures not_opened { (result ≡ Passed → ⊥) → self.new.opened ≡ false }
        ensures newest { self.new.newest ≡ Some (targets_of frame.now) }
    {
        self.admit_offered(&FrameOffer::new(frame, packets), queued)
    }

    /// Does the same as [`Selector::admit`], with an offer that was made once for all subscribers.
    #[inline(always)]
    pub fn admit_offered(&mut self, offer: &FrameOffer<'_>, queued: u16) -> Verdict
        ensures { IsAdmitted self.old self.new offer.now queued result }
    {
        let below = self.meet(offer);
        let missing = missing_reference(offer, &self.passed, below);
        let complete = missing.is_none();
        let opening = offer.opening(self.wish, complete, self.key_passed, &self.target);
        if offer.passes(opening, &self.target, complete, queued) {
            self.pass(offer, opening);
            return Verdict::Passed;
        }
        self.top = false;
        self.opened = false;
        withheld(offer, self.wish, missing, opening, &self.target, queued)
    }

    /// Returns whether the last frame was passed and has the highest spatial id of the
    /// subscriber's open target. If so, the frame's last packet ends the temporal unit.
    pub fn marks_last(&self) -> bool
        ensures { result ≡ self.now.top }
    {
        self.top
    }

    /// Returns whether the last frame was passed and opened a target.
    pub fn opened(&self) -> bool
        ensures { result ≡ self.now.opened }
    {
        self.opened
    }

    // Prepares the selector for a frame, before the verdict. If the frame is of another epoch, begins that epoch. Closes the open
    // target if it isn't in the frame's mask or its chain is broken. Returns the passed frames just below this frame, as a mask.
    #[inline(always)]
    fn meet(&mut self, offer: &FrameOffer<'_>) -> u64
        ensures stands { (s : Standing) → StandsFor self.old s → IsAboveAll offer.now.frame s → KeepsAt self.new s offer.now.frame }
        ensures newest { self.new.newest ≡ Some (targets_of offer.now.frame) }
        ensures index { IsIndexBelow 32 self.new.target }
        ensures below { AreBelow self.new.numbers offer.now.frame.number result }
    {
        let frame = offer.frame();
        self.begin_epoch(frame);
        self.newest.set(frame);
        let below = self.passed.right_below(frame.number);
        if !stays(frame, &self.target, below) {
            close(&mut self.target, frame, &self.passed);
        }
        below
    }

    // If the frame is of another epoch, forgets what was passed and closes the target.
    fn begin_epoch(&mut self, frame: &FrameMeaning)
        ensures stands { (s : Standing) → StandsFor self.old s → StandsAt self.new s frame.now }
        ensures epoch { self.new.epoch ≡ Some frame.now.epoch }
    {
        if self.epoch == Some(frame.epoch) {
            return;
        }
        self.epoch = Some(frame.epoch);
        let since = frame.number;
        let reason = Reason::NotOpened { since };
        self.target = CurrentTarget::Closed { reason };
        self.key_passed = false;
        self.passed.reset();
    }

    // Passes the frame, and opens the target `opening`, if there is one.
    #[inline(always)]
    fn pass(&mut self, offer: &FrameOffer<'_>, opening: Option<u8>)
        requires opening { IsBelow 32 opening }
        ensures wish { self.new.wish ≡ self.old.wish }
        ensures epoch { self.new.epoch ≡ self.old.epoch }
        ensures target { self.new.target ≡ opened_or offer.now.frame opening self.old.target }
        ensures key_passed { self.new.key_passed ≡ (offer.now.frame.key || self.old.key_passed) }
        ensures numbers { IsAboveAllNumbers offer.now.frame.number self.old.numbers → self.new.numbers ≡ held_of (offer.now.frame.number ∷ self.old.numbers) }
        ensures top { self.new.top ≡ is_top_layer offer.now.frame (opened_or offer.now.frame opening self.old.target) }
        ensures opened { self.new.opened ≡ is_something opening }
        ensures newest { self.new.newest ≡ self.old.newest }
    {
        let number = offer.number();
        self.passed.insert(number);
        open(&mut self.target, opening, number);
        self.key_passed |= offer.frame().key;
        self.top = offer.is_top_layer(self.target);
        self.opened = opening.is_some();
    }
}

// Opens the target `opening`, if there is one, at this frame number.
#[inline(always)]
fn open(target: &mut CurrentTarget, opening: Option<u8>, opened: u64)
    requires opening { IsBelow 32 opening }
    requires index { IsIndexBelow 32 target.old }
    ensures value { (f : Meaning) → f.number ≡ opened → target.new ≡ opened_or f opening target.old }
    ensures below { IsIndexBelow 32 target.new }
{
    if let Some(index) = opening {
        *target = CurrentTarget::Open { index, opened };
    }
}

// Returns whether the best target is the open one.
fn is_aimed(best: Option<u8>, current: CurrentTarget) -> bool
    ensures { result ≡ is_aimed best current }
{
    match (best, current) {
        (Some(best), CurrentTarget::Open { index, opened: _ }) => best == index,
        _ => false,
    }
}
