//! A segment of a grid.

/// A segment between two cells that lie side by side.
#[derive(Clone, Copy)]
pub struct GridSegment {
    /// The segment's number: twice its first cell's where it goes east, else one more.
    pub k: u32,
    /// The cell from which it goes.
    pub a: u32,
    /// The cell to which it goes, east or north of the first.
    pub b: u32,
    /// 0 residential, 1 primary, 2 track, 3 cycleway.
    pub class: u8,
}
