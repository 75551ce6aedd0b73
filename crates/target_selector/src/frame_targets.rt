// A frame's decode targets (AV1 RTP payload format, Appendix A: templates' layers, active_decode_targets_bitmask), which of them a wish allows,
// and which is best (own rules).
ghost use Rattle.std.specs.Prelude.{◌≡◌, ◌+◌, ◌≤◌, ◌<◌, ◌^◌, ◌==◌, ◌||◌, ◌&&◌, nat_lt, if◌then◌else◌};
ghost use Rattle.forwarding_model.specs.forwarding.Targets.{is_better_of, is_within};
ghost use Rattle.target_selector.specs.Masks.{targets_where};
ghost use Rattle.target_selector.specs.Reaching.{targets_of};
ghost use Rattle.target_selector.specs.Targets.{IsBelow, IsRanked, allows, best_in, better_in, height, is_bit, layers_in};

use sfu_base::{FrameMeaning, Wish};

/// The layers of each decode target: its highest spatial id and its highest temporal id. `None` for a target in which no template of the structure is
/// present.
pub type Pairs = [Option<Wish>; 32];

/// A frame's decode targets: their number, the mask of the active ones, and the layers of each.
#[derive(Clone, Copy, Debug)]
pub struct FrameTargets {
    pub count: u8,
    pub mask: u32,
    pub pairs: Pairs,
}

/// No targets.
pub const NO_TARGETS: FrameTargets = FrameTargets {
    count: 0,
    mask: 0,
    pairs: [None; 32],
};

impl FrameTargets {
    /// Replaces the targets with those of the frame.
    pub fn set(&mut self, frame: &FrameMeaning)
        ensures { self.new ≡ targets_of frame.now }
    {
        self.count = frame.target_count;
        self.mask = frame.mask;
        self.pairs = frame.pairs;
    }
}

/// The best target so far, if there is one. A target with a greater index is better if the `height` of its layers is at least `least`.
#[derive(Clone, Copy, Debug)]
pub struct Ranked {
    pub target: Option<u8>,
    pub least: u32,
}

/// Considers the targets with an index below `count` that are in the mask `among` and whose layers are within the wish. Returns the best of them, or
/// `None` if there are none.
#[tactic(auto, using(crate::proofs::Bests::best_step))]
pub fn best_of(wish: Wish, among: u32, count: u8, pairs: &Pairs) -> Option<u8>
    requires { count ≤ 32 }
    ensures value { result ≡ best_in pairs.now (allows wish among pairs.now) count }
    ensures below { IsBelow 32 result }
{
    let mut best = Ranked {
        target: None,
        least: 0,
    };
    for target in 0..count {
        best = better(wish, among, pairs, target, best);
    }
    best.target
}

// Returns `target` if it is in the mask `among`, its layers are within the wish, and it is better than `best`; otherwise returns `best`.
fn better(wish: Wish, among: u32, pairs: &Pairs, target: u8, best: Ranked) -> Ranked
    requires target { target < 32 }
    requires best { IsRanked pairs.now target best }
    ensures value { result.target ≡ better_in pairs.now (allows wish among pairs.now target) target best.target }
    ensures ranked { IsRanked pairs.now (target + 1) result }
{
    match layers_in(pairs, target) {
        Some(own) => {
            if has_bit(among, target) && is_within(wish, Some(own)) && best.least <= height(own) {
                Ranked {
                    target: Some(target),
                    least: height(own) + 1,
                }
            } else {
                best
            }
        }
        None => best,
    }
}

// Ranks layers by the spatial id, then by the temporal id. Of two targets the one whose layers have the greater height is better.
fn height(layers: Wish) -> u32
    ensures height { result ≡ height layers }
    ensures temporal { layers.temporal < 256 }
    ensures below { result < 65536 }
{
    u32::from(layers.spatial) * 256 + u32::from(layers.temporal)
}

/// Returns the target's layers, or `None` if it has none.
pub fn layers_in(pairs: &Pairs, target: u8) -> Option<Wish>
    requires { target < 32 }
    ensures { result ≡ layers_in pairs.now target }
{
    pairs[usize::from(target)]
}

/// Returns whether the target is in the mask `among` and its layers are within the wish.
pub fn is_allowed(wish: Wish, among: u32, pairs: &Pairs, target: u8) -> bool
    requires { target < 32 }
    ensures { result ≡ allows wish among pairs.now target }
{
    has_bit(among, target) && is_within(wish, layers_in(pairs, target))
}

/// Returns whether `target` is better than `other`. A target without layers is never better, and a target with layers is better than one without. Of
/// two targets with layers, the one with the greater spatial id is better. If the spatial ids are equal, the greater temporal id decides, and then
/// the lower index.
pub fn is_better(pairs: &Pairs, target: u8, other: u8) -> bool
    requires target { target < 32 }
    requires other { other < 32 }
    ensures { result ≡ is_better_of (layers_in pairs.now target) (layers_in pairs.now other) target other }
{
    match (layers_in(pairs, target), layers_in(pairs, other)) {
        (None, _) => false,
        (Some(_), None) => true,
        (Some(pair), Some(other_pair)) => {
            other_pair.spatial < pair.spatial
                || (pair.spatial == other_pair.spatial
                    && (other_pair.temporal < pair.temporal
                        || (pair.temporal == other_pair.temporal && target < other)))
        }
    }
}

/// Returns a mask of the targets with an index below `count`. It has those that are in the mask `among` and whose layers are at most `most`.
pub fn mask_within(most: Wish, among: u32, count: u8, pairs: &Pairs) -> u32
    requires { count ≤ 32 }
    ensures { result ≡ targets_where (allows most among pairs.now) count }
{
    let mut mask = 0;
    for target in 0..count {
        mask = with_target(mask, target, is_allowed(most, among, pairs, target));
    }
    mask
}

/// Returns the mask, with the target's bit set if `has` is true. In `mask`, only bits below the target's bit may be set.
pub fn with_target(mask: u32, target: u8, has: bool) -> u32
    requires target { target < 32 }
    requires mask { mask < 2 ^ target }
    ensures { result ≡ mask + (if has then 2 ^ target else 0) }
{
    if has { mask + (1 << target) } else { mask }
}

/// Returns whether the target's bit is set in the mask.
pub fn has_bit(mask: u32, target: u8) -> bool
    requires { target < 32 }
    ensures { result ≡ is_bit mask target }
{
    (mask >> target) % 2 == 1
}

/// Returns true if `pair` is `Some`, and its spatial and temporal ids are both at most those of the wish. Otherwise returns false.
pub fn is_within(wish: Wish, pair: Option<Wish>) -> bool
    ensures { result ≡ is_within wish pair }
{
    match pair {
        None => false,
        Some(pair) => pair.spatial <= wish.spatial && pair.temporal <= wish.temporal,
    }
}
