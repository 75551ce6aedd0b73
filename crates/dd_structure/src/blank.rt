//! A blank structure, which is overwritten when another structure is read.

ghost use Rattle.dd_structure.specs.Columns.{IsWhole};

use crate::columns::{Columns, Distances, Resolutions};
use crate::reading::layers::FIRST;
use sfu_base::Dti;

const NO_DISTANCES: Distances = Distances {
    count: 0,
    items: [0; 16],
};

const NO_RESOLUTIONS: Resolutions = Resolutions {
    count: 0,
    items: [(0, 0); 4],
};

/// A structure with one template, of spatial and temporal id 0, and with one decode target.
pub const BLANK: Columns = Columns {
    offset: 0,
    target_count: 1,
    chain_count: 0,
    template_count: 1,
    layers: [FIRST; 64],
    indications: [[Dti::NotPresent; 32]; 64],
    distances: [NO_DISTANCES; 64],
    links: [[0; 32]; 64],
    guards: [0; 32],
    resolutions: NO_RESOLUTIONS,
};

/// Makes columns valid again after a fault ended a read early. The used entries become those of [`BLANK`]. The other entries stay.
#[inline(never)]
pub fn mend(out: &mut Columns)
    ensures { IsWhole out.new }
{
    out.offset = 0;
    out.target_count = 1;
    out.chain_count = 0;
    out.template_count = 1;
    out.layers[0] = FIRST;
    out.indications[0] = [Dti::NotPresent; 32];
    out.distances[0] = NO_DISTANCES;
    out.resolutions = NO_RESOLUTIONS;
}
