//! The two parts of a tag table.

/// A part of a tag table.
#[derive(Clone, Copy)]
pub enum Part {
    /// The tags of ways.
    Way,
    /// The tags of nodes.
    Node,
}
