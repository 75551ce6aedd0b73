//! Checks, for the chain that protects a decode target, whether the chain's previous frame was forwarded (AV1 RTP payload format, Appendix A).
#![tactic(auto)]

ghost use Rattle.std.specs.Prelude.{◌≡◌, ◌<◌, ◌==◌, List};
ghost use Rattle.std.specs.Int.{bit_at};
ghost use Rattle.sfu_base.specs.Frame.{IsValid};
ghost use Rattle.sfu_base.specs.declared.frame.FrameMeaning.{FrameMeaning as Frame};
ghost use Rattle.forwarding_model.specs.forwarding.Selection.{chain_link};
ghost use Rattle.forwarding_model.specs.forwarding.Standing.{has_below as has_frame_below};
ghost use Rattle.ref_window.specs.Numbers.{IsAboveAll, has_below, held_of};
ghost use Rattle.chain_state.specs.Links.{LinkedIsIntact, is_linked, link_of, numbers_of};

use ref_window::RefWindow;
use sfu_base::FrameMeaning;

/// The state of a chain at a frame: intact or broken.
#[derive(Clone, Copy, Debug, PartialEq, Eq)]
pub enum LinkState {
    /// The chain's previous frame was forwarded, or isn't needed.
    Intact,
    /// The chain's previous frame is frame `number`, which wasn't forwarded.
    Broken { number: u64 },
}

/// Returns the state at `frame` of the chain that protects `target`, the open decode target. `passed` has the numbers of the epoch's forwarded frames.
/// The target was opened at frame `opened`. Earlier frames of the chain aren't needed. If there are no chains, or if the frame's distance in the chain
/// (frame_chain_fdiff) is 0, the result is `Intact`.
pub fn link_state(frame: &FrameMeaning, target: u8, opened: u64, passed: &RefWindow) -> LinkState
    requires valid { IsValid frame.now }
    requires target { target < frame.now.target_count }
    ensures state { result ≡ link_of (has_below passed.now frame.now.number) frame.now target opened }
    ensures stands { (frames : List Frame) → passed.now ≡ held_of (numbers_of frames) → IsAboveAll frame.now.number (numbers_of frames)
        → result ≡ link_of (has_frame_below frames frame.now.number) frame.now target opened }
{
    if frame.chain_count == 0 {
        return LinkState::Intact;
    }
    let distance = u64::from(distance_in_chain(frame, target));
    if distance == 0 || frame.number < distance || frame.number - distance < opened {
        return LinkState::Intact;
    }
    let number = frame.number - distance;
    if passed.holds(number) {
        LinkState::Intact
    } else {
        LinkState::Broken { number }
    }
}

/// Returns true if there are no chains. Otherwise returns whether bit d of the mask `forwarded` is 1, where d is the frame's distance in the target's
/// chain (frame_chain_fdiff). Each set bit i, from 0 (the lowest bit) to 63, stands for a forwarded frame whose number is i lower than that of
/// `frame`.
#[inline(always)]
pub fn is_linked(frame: &FrameMeaning, target: u8, forwarded: u64) -> bool
    requires valid { IsValid frame.now }
    requires target { target < frame.now.target_count }
    ensures { result ≡ is_linked frame.now target forwarded }
{
    frame.chain_count == 0 || has_bit(forwarded, distance_in_chain(frame, target))
}

/// A law: suppose that a frame's number is above the numbers of all forwarded frames. Suppose also that [`is_linked`] returns true for this frame and
/// for a mask in which each set bit stands for a forwarded frame. Then the target's chain is intact at this frame, whichever frame opened the target.
pub fn linked_chains_are_intact()
    ensures { LinkedIsIntact }
{}

fn distance_in_chain(frame: &FrameMeaning, target: u8) -> u8
    requires valid { IsValid frame.now }
    requires target { target < frame.now.target_count }
    requires chains { 0 < frame.now.chain_count }
    ensures { result ≡ chain_link frame.now target }
{
    let chain = frame.guards[usize::from(target)];
    frame.links[usize::from(chain)]
}

fn has_bit(mask: u64, place: u8) -> bool
    ensures { result ≡ (bit_at mask place == 1) }
{
    place < 64 && (mask >> place) % 2 == 1
}
