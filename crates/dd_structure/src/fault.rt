use thiserror::Error;

/// The reason why some bits aren't a template structure. The reported fault is the first one from left to right.
#[derive(Clone, Copy, Debug, PartialEq, Eq, Error)]
pub enum StructureFault {
    /// Fewer bits are left than the next field needs.
    #[error("fewer bits are left than the next field needs")]
    Short,
    /// A template's spatial id is above 3, or its temporal id above 7.
    #[error("a template has a spatial id above 3 or a temporal id above 7")]
    Layer,
    /// There is a 65th template.
    #[error("there is a 65th template")]
    Templates,
    /// A template has a 17th distance.
    #[error("a template has a 17th distance")]
    References,
}
