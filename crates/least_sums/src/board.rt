//! The sums so far, and the nodes that wait to be looked at.

ghost use Rattle.std.specs.Prelude.{◌≡◌, ◌<◌, ◌≤◌, IfOk, MatchOption, OnOk, false, [], length, replicate};
ghost use Rattle.least_sums.specs.States.{Lowers, Pops, WaitNoLess, at, state_of};

use crate::amount::Amount;
use item_list::Paged;
use std::alloc::{AllocError, Global};
use std::cmp::Reverse;
use std::collections::BinaryHeap;

/// The sums so far by node; the nodes that wait, each with the sum that it had, least sum first;
/// and whether a sum was left out because it doesn't fit.
#[derive(Drop)]
pub(crate) struct Board<N: Copy + Drop + Ord> {
    pub(crate) sums: Paged<N>,
    queue: BinaryHeap<Reverse<(N, u32)>>,
    pub(crate) cut: bool,
}

impl<N: Amount> Board<N> {
    /// No node has a sum, and nothing waits.
    pub(crate) fn new(alloc: Global, nodes: u32) -> Result<Board<N>, AllocError>
        ensures value { IfOk result (λ board. state_of N.number board ≡
            record { sums = replicate nodes N.FAR; queue = []; cut = false }) }
    {
        Ok(Board {
            sums: Paged::new(alloc, N::kept(N::FAR), nodes as usize)?,
            queue: BinaryHeap::new(alloc),
            cut: false,
        })
    }

    /// The sum so far of a node.
    pub(crate) fn sum(&self, node: u32) -> u128
        requires in_range { node < length (state_of N.number self.now).sums }
        ensures value { result ≡ at (state_of N.number self.now) node }
    {
        self.sums.get(node as usize).wide()
    }

    /// Takes the entry of the least sum from the queue.
    pub(crate) fn pop(&mut self) -> Option<(u128, u32)>
        ensures value { let old = state_of N.number self.old in
            let new = state_of N.number self.new in
            MatchOption result ((new ≡ old) × (old.queue ≡ []))
            (λ entry. Pops old new entry.0 entry.1) }
    {
        let entry = self.queue.pop()?;
        let (sum, node) = entry.0;
        Some((sum.wide(), node))
    }

    /// A node takes this sum, and waits with it.
    pub(crate) fn lower(&mut self, node: u32, sum: u128) -> Result<(), AllocError>
        requires in_range { node < length (state_of N.number self.old).sums }
        requires fits { sum ≤ N.FAR }
        ensures value { OnOk result
            (Lowers (state_of N.number self.old) (state_of N.number self.new) node sum) }
    {
        let kept = N::kept(sum);
        self.sums.set(node as usize, kept)?;
        match self.queue.push(Reverse((kept, node))) {
            Ok(()) => Ok(()),
            Err(_) => Err(AllocError),
        }
    }

    /// The least of a number and of the sums of all entries that wait.
    pub(crate) fn least_waiting(&self, sum: u128) -> N
        ensures most { N.number result ≤ sum }
        ensures fits { N.number result ≤ N.FAR }
        ensures least { WaitNoLess (state_of N.number self.now) (N.number result) }
    {
        let mut least = sum.min(N::FAR);
        let waiting = self.queue.as_slice();
        'entries: for place in 0..waiting.len() {
            let (sum, _node) = waiting[place].0;
            least = least.min(sum.wide());
        }
        N::kept(least)
    }
}
