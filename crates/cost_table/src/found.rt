//! The costs that are found, and the nodes that still wait for theirs.

ghost use Rattle.std.specs.List.{Contains, IsDistinct};
ghost use Rattle.std.specs.Option.{IsSome};
ghost use Rattle.std.specs.Prelude.{ℕ, ◌≡◌, ◌↔◌, IfOk, OnOk, false, nat_eq};
ghost use Rattle.indexmap.specs.IndexMap.{get};
ghost use Rattle.cost_table.specs.Found.{AreAwaited, Begins, IsNew, NotesBy, PassesBy, PutsDown, cost_at};
ghost use Rattle.cost_table.specs.Waiting.{waits_among};

use crate::turn::ReachTurn;
use crate::waiting::Waiting;
use crate::want::Want;
use indexmap::IndexMap;
use std::alloc::{AllocError, Global};

/// The costs that are found.
pub(crate) struct Found {
    pub(crate) want: Want,
    /// What it costs to come to each node that was found, in the order in which they were.
    pub(crate) costs: IndexMap<u32, u128>,
    /// The nodes that are asked for and not found; none where all within a cost are.
    pub(crate) waiting: Waiting,
}

impl Drop for Found {
    fn drop(self) {
        let Found {
            want: _,
            costs: _,
            waiting: _,
        } = self;
    }
}

impl Found {
    /// Nothing is found.
    pub(crate) fn new(alloc: Global, want: Want) -> Found
        ensures want { result.want ≡ want }
        ensures none { IsNew result }
    {
        Found {
            want,
            costs: IndexMap::new(alloc),
            waiting: Waiting::new(alloc),
        }
    }

    /// The node that is left is found, and the others that are asked for wait. Tells whether all is
    /// found.
    pub(crate) fn begin(&mut self, source: u32) -> Result<bool, AllocError>
        requires new { IsNew self.old }
        ensures want { self.new.want ≡ self.old.want }
        ensures begins { IfOk result (Begins source self.old self.new) }
    {
        put_down(&mut self.costs, source, 0)?;
        match &self.want {
            Want::Nodes(nodes) => {
                wait_all(nodes.as_slice(), source, &mut self.waiting)?;
                Ok(self.waiting.is_empty())
            }
            Want::Within(_) => Ok(false),
        }
    }

    /// A label that reaches a node at a cost was settled. Tells whether all is found.
    pub(crate) fn note(&mut self, node: u32, cost: u128) -> Result<bool, AllocError>
        ensures want { self.new.want ≡ self.old.want }
        ensures notes { IfOk result (NotesBy self.old.want node cost self.old self.new) }
    {
        match &self.want {
            Want::Nodes(_) => {
                if !self.waiting.take(node) {
                    return Ok(false);
                }
                put_down(&mut self.costs, node, cost)?;
                Ok(self.waiting.is_empty())
            }
            Want::Within(most) => {
                if cost > *most {
                    return Ok(true);
                }
                put_down(&mut self.costs, node, cost)?;
                Ok(false)
            }
        }
    }

    /// What a label at a cost comes to that would be one more than the limit: it spends the limit,
    /// but where it is beyond the cost that is asked for all is found without it.
    pub(crate) fn past(&self, cost: u128) -> ReachTurn
        ensures passes { PassesBy self.now.want cost result }
    {
        match &self.want {
            Want::Nodes(_) => ReachTurn::Budget,
            Want::Within(most) => {
                if *most < cost {
                    ReachTurn::Done
                } else {
                    ReachTurn::Budget
                }
            }
        }
    }

    /// The nodes for which a cost is found, in the order in which they were.
    pub(crate) fn nodes(&self) -> &[u32]
        ensures exact { (node : ℕ) → Contains result.now node ↔ IsSome (cost_at self.now node) }
        ensures distinct { IsDistinct nat_eq result.now }
    {
        self.costs.keys().as_slice()
    }

    /// The cost that is found for a node.
    pub(crate) fn cost_of(&self, node: u32) -> Option<u128>
        ensures value { result ≡ cost_at self.now node }
    {
        self.costs.get(&node).copied()
    }
}

/// Puts a cost down for a node that has none.
fn put_down(costs: &mut IndexMap<u32, u128>, node: u32, cost: u128) -> Result<(), AllocError>
    ensures puts { OnOk result (PutsDown node cost (get nat_eq costs.old) (get nat_eq costs.new)) }
{
    if !costs.contains_key(&node) {
        costs.insert(node, cost)?;
    }
    Ok(())
}

/// All these nodes wait but the one that is left.
fn wait_all(nodes: &[u32], source: u32, waiting: &mut Waiting) -> Result<(), AllocError>
    requires none { (node : ℕ) → waits_among waiting.old node ≡ false }
    ensures waits { OnOk result (AreAwaited nodes.now source (waits_among waiting.new)) }
{
    'nodes: for node in nodes {
        if *node != source {
            waiting.add(*node)?;
        }
    }
    Ok(())
}
