// The two forms of scripts.

/// The form of a script.
#[derive(Clone, Copy, Debug, PartialEq, Eq)]
pub enum Form {
    /// Lines of text, counted from 1.
    Lines,
    /// A header, and then records. The header counts as record 0.
    Records,
}
