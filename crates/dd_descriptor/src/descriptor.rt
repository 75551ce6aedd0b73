ghost use Rattle.std.specs.Prelude.{◌≡◌, ◌≤◌, ◌&&◌, ◌==◌, is_some, length, take};
ghost use Rattle.dd_descriptor.specs.Seen.{IsBlank};

use dd_structure::Structure;
use sfu_base::Dti;

/// Says which parts of a frame's definition are custom, which means that the descriptor itself gives them. All other parts are copied from the
/// frame's template.
#[derive(Clone, Copy, Debug, PartialEq, Eq)]
pub struct Custom {
    /// Whether the decode target indications are custom (custom_dtis_flag).
    pub dtis: bool,
    /// Whether the distances to the referenced frames are custom (custom_fdiffs_flag).
    pub fdiffs: bool,
    /// Whether the distances to the previous frame of each chain are custom (custom_chains_flag).
    pub chains: bool,
}

/// The contents of a packet's dependency descriptor (RTP Payload Format For AV1 v1.0, Appendix A). Of each array, only the first entries are used.
/// `dtis` has one used entry for each decode target, `links` has one for each chain, and `refs` has `ref_count` used entries.
#[derive(Debug, Drop)]
pub struct Descriptor {
    /// Whether the packet is the first of its frame.
    pub start: bool,
    /// Whether the packet is the last of its frame.
    pub end: bool,
    /// frame_dependency_template_id, 0 to 63.
    pub template: u8,
    /// The frame number modulo 65,536.
    pub number: u16,
    /// The template structure that the descriptor carries, or `None` if it carries none.
    pub structure: Option<Structure>,
    /// The mask of active decode targets: bit i is 1 if decode target i is active. Bit 0 is the lowest bit. If the descriptor carries a structure
    /// but no mask, all decode targets of the structure are active. If the descriptor carries neither, the value is `None`.
    pub mask: Option<u32>,
    /// The frame's spatial id, 0 to 3.
    pub spatial: u8,
    /// The frame's temporal id, 0 to 7.
    pub temporal: u8,
    /// Which parts of the frame's definition are custom.
    pub custom: Custom,
    /// The frame's indication for each decode target.
    pub dtis: [Dti; 32],
    /// How many frames this frame refers to, at most 16.
    pub ref_count: u8,
    /// For each frame that this frame refers to, the distance back to it in frame numbers, 1 to 4,096.
    pub refs: [u16; 16],
    /// For each chain, the distance back to the chain's previous frame in frame numbers. The value 0 means that no previous frame is needed.
    pub links: [u8; 32],
}

impl Descriptor {
    /// Returns a blank descriptor. Reading can overwrite it (see [`read_into`](crate::read_into)).
    pub fn new() -> Descriptor
        ensures { IsBlank result }
    {
        Descriptor {
            start: false,
            end: false,
            template: 0,
            number: 0,
            structure: None,
            mask: None,
            spatial: 0,
            temporal: 0,
            custom: Custom {
                dtis: false,
                fdiffs: false,
                chains: false,
            },
            dtis: [Dti::NotPresent; 32],
            ref_count: 0,
            refs: [0; 16],
            links: [0; 32],
        }
    }

    // The distances, in frame numbers, to the frames that this frame refers to.
    fn references(&self) -> &[u16]
        requires { self.now.ref_count ≤ 16 }
        ensures { result.now ≡ take self.now.ref_count self.now.refs }
    {
        &self.refs[..self.ref_count as usize]
    }

    /// Returns whether the descriptor begins a key frame. It does if it carries a structure, its packet is the first of a frame, and this frame has
    /// no references. Own rule.
    pub fn begins_key_frame(&self) -> bool
        requires { self.now.ref_count ≤ 16 }
        ensures { result ≡ (is_some self.now.structure && (self.now.start && length (take self.now.ref_count self.now.refs) == 0)) }
    {
        self.structure.is_some() && self.start && self.references().is_empty()
    }
}

impl Default for Descriptor {
    fn default() -> Descriptor
        ensures { IsBlank result }
    {
        Descriptor::new()
    }
}

/// A packet's place in its frame: whether the packet is the first of the frame, whether it is the last, and the frame's number.
#[derive(Clone, Copy, Debug, PartialEq, Eq)]
pub struct Edges {
    pub start: bool,
    pub end: bool,
    /// The frame number modulo 65,536.
    pub number: u16,
}
