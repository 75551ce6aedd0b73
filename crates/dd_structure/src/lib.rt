//! Reads the template structure of an AV1 dependency descriptor from bits, and writes it to bits (RTP Payload Format For AV1 v1.0, Appendix A).
//!
//! A [`Structure`] has up to 64 templates. Frames refer to a template by its id. A template has a layer, decode target indications, the distances to
//! referenced frames and, for each chain, the distance to the chain's previous frame. The structure also says which chain protects each decode
//! target. Nothing here allocates memory.
#![tactic(auto)]

mod access;
mod blank;
mod columns;
mod equal;
mod fault;
mod laws;
mod layer;
mod pair;
mod reading;
mod structure;
mod writing;

pub use fault::StructureFault;
pub use laws::{structure_reads_back, structures_are_well_formed};
pub use layer::Layer;
pub use reading::chains::read_links_into;
pub use reading::indications::read_indications_into;
pub use structure::Structure;
pub use writing::chains::put_links;
pub use writing::indications::put_indications;
