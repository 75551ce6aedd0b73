ghost use Rattle.std.specs.Prelude.{◌≡◌, slice_get};
ghost use Rattle.dd_structure.specs.Pair.{is_present, pair_of, joined, layer_where};

use crate::layer::Layer;
use crate::structure::Structure;
use sfu_base::{Dti, Wish};

fn is_present_to(indications: &[Dti], target: u8) -> bool
    ensures { result ≡ is_present (slice_get indications.now target) }
{
    if (target as usize) < indications.len() {
        match indications[target as usize] {
            Dti::NotPresent => false,
            Dti::Discardable | Dti::Switch | Dti::Required => true,
        }
    } else {
        false
    }
}

/// The layer of a template if the template is present in the target (`is_there`), otherwise `None`.
fn layer_if(is_there: bool, layer: Layer) -> Option<Wish>
    ensures { result ≡ layer_where is_there layer }
{
    if is_there {
        Some(Wish {
            spatial: layer.spatial,
            temporal: layer.temporal,
        })
    } else {
        None
    }
}

/// The greater of the two spatial ids, and the greater of the two temporal ids. If `a` or `b` is `None`, the result is the other one.
fn join(a: Option<Wish>, b: Option<Wish>) -> Option<Wish>
    ensures { result ≡ joined a b }
{
    match (a, b) {
        (None, b) => b,
        (Some(a), None) => Some(a),
        (Some(a), Some(b)) => Some(Wish {
            spatial: a.spatial.max(b.spatial),
            temporal: a.temporal.max(b.temporal),
        }),
    }
}

impl Structure {
    /// The greatest spatial id and the greatest temporal id of the templates that are present in a decode target. `None` if no template is
    /// present in it, or if there is no such target.
    pub fn pair(&self, target: u8) -> Option<Wish>
        ensures { result ≡ pair_of self.now target }
    {
        let mut best = None;
        for template in 0..self.template_count() {
            let is_there = is_present_to(self.indications(template), target);
            best = join(best, layer_if(is_there, self.layer(template)));
        }
        best
    }
}
