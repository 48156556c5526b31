//! The two ways in which rows are written.

/// How rows are written.
#[derive(Clone, Copy)]
pub(crate) enum Style {
    /// As lines of fields.
    Lines,
    /// As arrays of texts.
    Json,
}
