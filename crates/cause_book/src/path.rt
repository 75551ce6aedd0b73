// Checks whether steps are a path of causes.
ghost use Rattle.std.specs.Prelude.{◌≡◌, ◌↔◌, IsTrue};
ghost use Rattle.forwarding_model.specs.forwarding.Causes.{IsPath, followed};
ghost use Rattle.cause_book.specs.Path.{is_path, is_root, leads_to};

use sfu_base::{Step, Verdict};

/// Whether the steps are a path of causes (own rule). Such a path begins at a frame that wasn't forwarded, and ends at the root cause. The steps are a
/// path if there is at least one step, and
/// - each step before the last one is a missing reference (`Reference`) or a broken chain link (`Link`), and its verdict names the number of the next
///   step;
/// - the number of each step after the first is below the number of the step before it;
/// - the last step is a root: a full queue (`Full`), a hole (`Hole`), a frame outside the target (`NotOfTarget`), an unopened target (`Unopened`), or a
///   reference to a frame before the epoch (`Behind`).
pub fn check_path(steps: &[Step]) -> bool
    ensures { IsTrue result ↔ IsPath steps.now }
{
    leads_to_root(steps)
}

// Does what `check_path` does: checks each step together with the next one, and then the last step.
fn leads_to_root(steps: &[Step]) -> bool
    ensures { result ≡ is_path steps.now }
{
    if steps.is_empty() {
        return false;
    }
    for i in 1..steps.len() {
        if !leads(&steps[i - 1], &steps[i]) {
            return false;
        }
    }
    is_end(&steps[steps.len() - 1].verdict)
}

// Whether a step names the number of the next step, and the next step's number is below the step's own.
fn leads(step: &Step, next: &Step) -> bool
    ensures { result ≡ leads_to step.now next.now }
{
    match named(&step.verdict) {
        Some(number) => number == next.number && next.number < step.number,
        None => false,
    }
}

// The number of the frame that a verdict names as its cause, if it names one.
fn named(verdict: &Verdict) -> Option<u64>
    ensures { result ≡ followed verdict.now }
{
    match *verdict {
        Verdict::Reference { number } | Verdict::Link { at: _, number } => Some(number),
        _ => None,
    }
}

// Whether a verdict is a root, at which a path ends.
fn is_end(verdict: &Verdict) -> bool
    ensures { result ≡ is_root verdict.now }
{
    match verdict {
        Verdict::Passed | Verdict::Reference { .. } | Verdict::Link { .. } => false,
        Verdict::NotOfTarget { .. }
        | Verdict::Behind { .. }
        | Verdict::Full { .. }
        | Verdict::Unopened { .. }
        | Verdict::Hole { .. } => true,
    }
}
