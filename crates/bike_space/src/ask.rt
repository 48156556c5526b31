//! What a leg is asked with.

/// What a leg is asked with, on a terrain.
#[derive(Clone, Copy)]
pub struct LegAsk<'a> {
    /// The links that circles cut; what is behind its end isn't cut.
    pub cut: &'a [bool],
    /// The links whose segments earlier alternatives used; what is behind its end wasn't used.
    pub used: &'a [bool],
    /// The node that the leg leaves.
    pub start: u32,
    /// The node that it reaches.
    pub target: u32,
    /// Whether turn restrictions count.
    pub turns: bool,
}
