//! What a search keeps while it runs.

ghost use Rattle.space_search.specs.Books.{books, IsFresh};

use crate::fronts::Fronts;
use crate::label::Label;
use crate::queue::Queue;
use std::alloc::Global;

/// The labels made so far by number; the queue of those that wait, least rank first, then least
/// number; the numbers of the settled ones in order; and the fronts of the slots, by which the
/// covering test finds settled labels.
pub struct Lists<T> {
    pub(crate) labels: Vec<Label<T>>,
    pub(crate) queue: Queue,
    pub(crate) settled: Vec<u32>,
    pub(crate) fronts: Fronts<T>,
}

impl<T: Drop> Drop for Lists<T> {
    fn drop(self) {
        let Lists {
            labels: _,
            queue: _,
            settled: _,
            fronts: _,
        } = self;
    }
}

impl<T> Lists<T> {
    /// Lists in which nothing stands.
    pub(crate) fn new(alloc: Global) -> Self
        ensures fresh { IsFresh (books result) }
    {
        Lists {
            labels: Vec::new(alloc),
            queue: Queue::new(alloc),
            settled: Vec::new(alloc),
            fronts: Fronts::new(alloc),
        }
    }
}
