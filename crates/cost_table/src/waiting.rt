//! The nodes that wait for their cost.

ghost use Rattle.std.specs.Prelude.{◌≡◌, [], OnOk};
ghost use Rattle.cost_table.specs.Waiting.{NoneWaits, WaitsNoLonger, WaitsToo, waits_among};

use std::alloc::{AllocError, Global};
use std::collections::HashSet;
use std::marker::Model;

/// How many marks there are.
const MARKS: usize = 64;

/// Nodes that wait, in a set with marks before it: the mark at `node % MARKS` is set for each node
/// that was added, and stays as the node is taken. Where a mark isn't set no node of it waits, and
/// the set isn't asked, whose hash costs far more.
///
/// Contracts see it as the list of the nodes that wait.
pub(crate) struct Waiting {
    nodes: HashSet<u32>,
    marks: [bool; MARKS],
}

impl Drop for Waiting {
    fn drop(self) {
        let Waiting { nodes: _, marks: _ } = self;
    }
}

impl Model for Waiting {
    ghost use Rattle.std.specs.Prelude.{ℕ, List};
    ghost use Rattle.cost_table.specs.Waiting.{AreMarked};

    ghost Value = { List ℕ };

    ghost view = { λ w. w.nodes.keys };

    ghost invariant = { λ w. AreMarked w.nodes.keys w.marks };
}

impl Waiting {
    /// None waits.
    pub(crate) fn new(alloc: Global) -> Waiting
        ensures value { result ≡ [] }
    {
        Waiting {
            nodes: HashSet::new(alloc),
            marks: [false; MARKS],
        }
    }

    /// A node waits too.
    pub(crate) fn add(&mut self, node: u32) -> Result<(), AllocError>
        ensures adds { OnOk result (WaitsToo node (waits_among self.old) (waits_among self.new)) }
    {
        self.nodes.insert(node)?;
        self.marks[node as usize % MARKS] = true;
        Ok(())
    }

    /// A node waits no longer. Tells whether it did.
    pub(crate) fn take(&mut self, node: u32) -> bool
        ensures test { result ≡ waits_among self.old node }
        ensures taken { WaitsNoLonger node (waits_among self.old) (waits_among self.new) }
    {
        if !self.marks[node as usize % MARKS] {
            return false;
        }
        self.nodes.remove(&node)
    }

    /// Whether none waits.
    pub(crate) fn is_empty(&self) -> bool
        ensures exact { NoneWaits (waits_among self.now) result }
    {
        self.nodes.is_empty()
    }
}
