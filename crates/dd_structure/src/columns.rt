//! A structure as arrays, one for each kind of field.

ghost use Rattle.std.specs.Prelude.{◌≤◌};

use crate::layer::Layer;
use sfu_base::Dti;

/// A template's frame differences: the distances to the referenced frames. Only the first `count` items are used.
#[derive(Clone, Copy, Debug)]
pub struct Distances {
    pub count: u8,
    pub items: [u8; 16],
    ghost within: { count ≤ 16 },
}

/// The width and height in pixels of each spatial id, from id 0 on. `count` is 0 if the structure has no resolutions.
#[derive(Clone, Copy, Debug)]
pub struct Resolutions {
    pub count: u8,
    pub items: [(u32, u32); 4],
    ghost within: { count ≤ 4 },
}

/// The fields of a structure. Only the first entries of each array are used: `template_count` of an array indexed by template, `target_count` of an
/// array indexed by decode target, and `chain_count` of an array indexed by chain.
#[derive(Clone, Copy, Debug)]
pub struct Columns {
    pub offset: u8,
    pub target_count: u8,
    pub chain_count: u8,
    pub template_count: u8,
    pub layers: [Layer; 64],
    pub indications: [[Dti; 32]; 64],
    pub distances: [Distances; 64],
    pub links: [[u8; 32]; 64],
    /// For each decode target, the index of the chain that protects it. The entries are used only if there are chains.
    pub guards: [u8; 32],
    pub resolutions: Resolutions,
}
