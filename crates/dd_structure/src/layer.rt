/// The layer of a template.
#[derive(Clone, Copy, Debug, PartialEq, Eq)]
pub struct Layer {
    /// Spatial id, 0 to 3.
    pub spatial: u8,
    /// Temporal id, 0 to 7.
    pub temporal: u8,
}
