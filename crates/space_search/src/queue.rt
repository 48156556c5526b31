//! The queue of labels that wait, by rank.

ghost use Rattle.std.specs.Prelude.{◌≡◌, [], ◌∷◌, MatchOption, OnOk, Some};
ghost use Rattle.std.specs.List.{slice_get};
ghost use Rattle.std.specs.List.Sorted.{IsPermutation};
ghost use Rattle.std.specs.BinaryHeap.{heap_items};
ghost use Rattle.space_search.specs.Queues.{Entry, IsFront, narrow_first};

use std::alloc::{AllocError, Global};
use std::cmp::Reverse;
use std::collections::BinaryHeap;
use std::marker::Model;

/// In the narrow heap the numbers of labels are below this.
const NUMBERS: u64 = 1 << 24;

/// In the narrow heap the ranks are below this.
const RANKS: u128 = 1 << 40;

/// The labels that wait, by rank and number, the least first. A rank below `RANKS` with a number
/// below `NUMBERS` is one number of 64 bits, `rank * NUMBERS + number`: such an entry takes 8 bytes
/// instead of 32, and two are compared at once. All others stand in a heap of their own. Each heap
/// may have the first of all, so the first ones of both are compared.
pub(crate) struct Queue {
    narrow: BinaryHeap<Reverse<u64>>,
    wide: BinaryHeap<Reverse<(u128, u32)>>,
}

impl Drop for Queue {
    fn drop(self) {
        let Queue { narrow: _, wide: _ } = self;
    }
}

impl Model for Queue {
    ghost use Rattle.std.specs.BinaryHeap.{heap_items};
    ghost use Rattle.std.specs.Prelude.{List};
    ghost use Rattle.space_search.specs.Queues.{Entry, IsQueue, waiting};

    ghost Value = { List Entry };

    ghost view = { λ q. waiting (heap_items q.narrow) (heap_items q.wide) };

    ghost invariant = { λ q. IsQueue (heap_items q.narrow) (heap_items q.wide) };
}

impl Queue {
    /// Nothing waits.
    pub(crate) fn new(alloc: Global) -> Queue
        ensures value { result ≡ [] }
    {
        Queue {
            narrow: BinaryHeap::new(alloc),
            wide: BinaryHeap::new(alloc),
        }
    }

    /// The number of the label that is first; `None` where nothing waits.
    pub(crate) fn first(&self) -> Option<u32>
        ensures front { MatchOption result (self.now ≡ []) (λ number. IsFront self.now number) }
    {
        if is_narrow_first(&self.narrow, &self.wide) {
            match self.narrow.peek() {
                Some(entry) => Some((entry.0 % NUMBERS) as u32),
                None => None,
            }
        } else {
            match self.wide.peek() {
                Some(entry) => Some(entry.0.1),
                None => None,
            }
        }
    }

    /// Takes out the label that is first, where one waits.
    pub(crate) fn pop(&mut self)
        ensures takes { (top : Entry) → slice_get self.old 0 ≡ Some top →
            IsPermutation self.old (top ∷ self.new) }
        ensures none { self.old ≡ [] → self.new ≡ [] }
    {
        if is_narrow_first(&self.narrow, &self.wide) {
            let _taken = self.narrow.pop();
        } else {
            let _taken = self.wide.pop();
        }
    }

    /// Puts in a label at its rank.
    pub(crate) fn push(&mut self, rank: u128, number: u32) -> Result<(), AllocError>
        ensures puts { OnOk result
            (IsPermutation (record { 0 = (rank, number) } ∷ self.old) self.new) }
    {
        if rank < RANKS && (number as u64) < NUMBERS {
            let packed = rank as u64 * NUMBERS + number as u64;
            match self.narrow.push(Reverse(packed)) {
                Ok(()) => Ok(()),
                Err(_) => Err(AllocError),
            }
        } else {
            match self.wide.push(Reverse((rank, number))) {
                Ok(()) => Ok(()),
                Err(_) => Err(AllocError),
            }
        }
    }
}

/// Whether the narrow heap is read first: where no other entry waits, and where the first narrow
/// one comes before the first of the others.
fn is_narrow_first(
    narrow: &BinaryHeap<Reverse<u64>>,
    wide: &BinaryHeap<Reverse<(u128, u32)>>,
) -> bool
    ensures value { result ≡ narrow_first (heap_items narrow.now) (heap_items wide.now) }
{
    match wide.peek() {
        None => true,
        Some(other) => match narrow.peek() {
            None => false,
            Some(entry) => ((entry.0 / NUMBERS) as u128, (entry.0 % NUMBERS) as u32) < other.0,
        },
    }
}
