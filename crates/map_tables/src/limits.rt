//! How much a map may hold.

/// How many nodes, ways, segments of ways and members of relations a map may have at most.
#[derive(Clone, Copy, Drop)]
pub struct Limits {
    /// Nodes.
    pub nodes: u32,
    /// Ways.
    pub ways: u32,
    /// Segments of all ways, also those that make no link.
    pub segments: u32,
    /// Members of all relations.
    pub members: u32,
}
