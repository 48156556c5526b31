//! A link of a map.

/// A piece of a way between two nodes that follow each other on it, in one direction.
#[derive(Clone, Copy, Drop)]
pub struct Link {
    /// The node that it leaves.
    pub from: u32,
    /// The node at which it arrives.
    pub to: u32,
    /// Its way.
    pub way: u32,
    /// Its place among the segments of its way.
    pub segment: u32,
    /// Whether it goes against the order of the way's nodes.
    pub back: bool,
}
