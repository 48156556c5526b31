//! What `arrow` gives: two parts and their length.

/// An arrow from one place to another, in millimetres.
#[derive(Clone, Copy)]
pub struct Arrow {
    /// How far the end lies east of the start.
    pub dx: i64,
    /// How far the end lies north of the start.
    pub dy: i64,
    /// The length, rounded down.
    pub len: u64,
}
