//! The kind of a reply's body.

/// The kind of a reply's body.
#[derive(Clone, Copy)]
pub enum Kind {
    Json,
    Csv,
    Plain,
}
