//! What is told of the route across hills.

/// The size of a grid, and what the route between its opposite corners costs.
#[derive(Clone, Copy)]
pub struct Hills {
    /// What the track costs, in millionths.
    pub cost: u128,
    /// How many cells the grid has.
    pub nodes: u32,
    /// How many segments the grid has.
    pub segments: u32,
}
