//! The forwarder uses only some parts of template structures and of descriptors (RTP Payload Format For AV1 v1.0, Appendix A). From a structure it
//! uses the layout of decode targets and chains. From a descriptor it uses the fields that describe a frame. This crate defines these parts, with
//! arrays of fixed length, and laws about the definitions. It has no code that runs.
#![tactic(auto)]

mod laws;

pub use laws::{carried_structures_have_layouts, same_structures_are_equal};
