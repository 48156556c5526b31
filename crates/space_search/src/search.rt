//! A search that is done in turns.

use crate::lists::Lists;
use crate::phase::Phase;
use crate::step::Steps;

/// A search for a goal of least cost. It keeps states of the type `T` and borrows no space: each
/// turn is given the space again.
pub struct Search<T> {
    pub(crate) lists: Lists<T>,
    /// The steps of the label that is settled; between turns it says nothing.
    pub(crate) steps: Steps<T>,
    /// The most labels that are settled.
    pub(crate) limit: u64,
    /// The number among the made labels of the goal that was found; else it says nothing.
    pub(crate) found: u32,
    pub(crate) phase: Phase,
}

impl<T: Drop> Drop for Search<T> {
    fn drop(self) {
        let Search {
            lists: _,
            steps: _,
            limit: _,
            found: _,
            phase: _,
        } = self;
    }
}
