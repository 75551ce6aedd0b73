// Why a frame is withheld: the first reason that applies. Own rules.
ghost use Rattle.std.specs.Prelude.{◌≡◌, ◌+◌, ◌-◌, ◌&&◌, false, if◌then◌else◌, nat_lt};
ghost use Rattle.sfu_base.specs.Frame.{IsValid};
ghost use Rattle.sfu_base.specs.declared.frame.Verdict.TheVariants.{Behind, Passed, Reference};
ghost use Rattle.forwarding_model.specs.forwarding.Selection.{has_capacity, opened_or, target_of};
ghost use Rattle.target_selector.specs.Stands.{passes_by, verdict_by};

use crate::frame_offer::FrameOffer;
use forwarding_model::{CurrentTarget, Reason};
use sfu_base::{FrameMeaning, Verdict, Wish};

/// The greatest number of packets in a subscriber's queue (own rule).
pub const MOST_QUEUED: u16 = 512;

/// Returns why a frame is withheld. `missing` is the distance to the frame's first reference that wasn't passed to the subscriber, if there is one.
/// `opening` is the target that the frame can open, if there is one, and `kept` is the current target. Out of line: most frames pass.
#[inline(never)]
pub fn withheld(
    offer: &FrameOffer<'_>,
    wish: Wish,
    missing: Option<u16>,
    opening: Option<u8>,
    kept: &CurrentTarget,
    queued: u16,
) -> Verdict
    requires fails { passes_by offer.now.frame offer.now.packets queued kept.now missing opening ≡ false }
    ensures value { result ≡ verdict_by offer.now.frame offer.now.packets queued wish kept.now missing opening }
    ensures fails { result ≡ Passed → ⊥ }
{
    let candidate = opened_or(offer.frame(), opening, *kept);
    let Some(target) = target_of(offer, wish, candidate) else {
        return Verdict::NotOfTarget { target: None };
    };
    if !offer.is_present(target) {
        return Verdict::NotOfTarget {
            target: Some(target),
        };
    }
    match missing {
        Some(fdiff) => reference_verdict(offer.frame(), fdiff),
        None => match candidate {
            CurrentTarget::Open { .. } => Verdict::Full {
                queued,
                needed: offer.packets(),
            },
            CurrentTarget::Closed { reason } => match reason {
                Reason::BrokenLink { at, number } => Verdict::Link { at, number },
                Reason::NotOpened { since } => Verdict::Unopened { since },
            },
        },
    }
}

// Returns the target that the frame opens, or `kept` if it opens none.
fn opened_or(frame: &FrameMeaning, opening: Option<u8>, kept: CurrentTarget) -> CurrentTarget
    ensures { result ≡ opened_or frame.now opening kept }
{
    let opened = frame.number;
    match opening {
        Some(index) => CurrentTarget::Open { index, opened },
        None => kept,
    }
}

// Returns the candidate's target, or the best allowed target if the candidate is closed.
fn target_of(offer: &FrameOffer<'_>, wish: Wish, candidate: CurrentTarget) -> Option<u8>
    ensures { result ≡ target_of wish offer.now.frame candidate }
{
    match candidate {
        CurrentTarget::Open { index, opened: _ } => Some(index),
        CurrentTarget::Closed { reason: _ } => offer.aim(wish),
    }
}

fn reference_verdict(frame: &FrameMeaning, fdiff: u16) -> Verdict
    requires { IsValid frame.now }
    ensures { result ≡ (if nat_lt frame.now.number (frame.now.start + fdiff) then Behind fdiff frame.now.start else Reference (frame.now.number - fdiff)) }
{
    let distance = u64::from(fdiff);
    if frame.number - frame.start < distance {
        Verdict::Behind {
            fdiff,
            start: frame.start,
        }
    } else {
        Verdict::Reference {
            number: frame.number - distance,
        }
    }
}

/// Returns whether a frame of `packets` packets fits in a queue that has `queued` packets.
pub fn has_capacity(packets: u16, queued: u16) -> bool
    ensures { result ≡ has_capacity queued packets }
{
    u32::from(queued) + u32::from(packets) <= u32::from(MOST_QUEUED)
}
