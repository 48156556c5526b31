//! The elimination of the nodes of a graph, from the least important one.

ghost use Rattle.std.specs.Prelude.{◌≡◌, ◌<◌, IfOk, OnOk, length, true, false};
ghost use Rattle.item_list.specs.Pages.{numbers_of};
ghost use Rattle.link_hierarchy.specs.Arcs.{Covers};
ghost use Rattle.link_hierarchy.specs.Eliminations.{ArePassed, IsElimination, IsShared, Lays, left_of};
ghost use Rattle.link_hierarchy.specs.Rows.{AreLists, AreRows, row_at};

use crate::arcs::Arc;
use crate::merge::{BEHIND, first_shared, item};
use crate::rows::{Rows, raise_one};
use crate::topology::Topology;
use std::alloc::{AllocError, Global};

/// The nodes of a graph are eliminated, the least important one first: each tail above it is joined
/// with each head above it. The rows of those that are eliminated stand one after the other.
pub struct Elimination {
    pub(crate) rows: Rows,
    pub(crate) out_starts: Vec<usize>,
    pub(crate) heads: Vec<u32>,
    pub(crate) in_starts: Vec<usize>,
    pub(crate) tails: Vec<u32>,
    /// The node that is eliminated now.
    pub(crate) node: u32,
    /// A node that is both a head and a tail above it, or one above all. What stands above that is
    /// joined where that node is eliminated, since it takes all of it.
    pub(crate) last: u32,
    /// How many of its tails are done.
    pub(crate) tails_done: usize,
    /// How many of its heads are done.
    pub(crate) heads_done: usize,
}

impl Drop for Elimination {
    fn drop(self) {
        let Elimination {
            rows: _,
            out_starts: _,
            heads: _,
            in_starts: _,
            tails: _,
            node: _,
            last: _,
            tails_done: _,
            heads_done: _,
        } = self;
    }
}

impl Elimination {
    /// Begins with the rows of all arcs.
    pub fn new(alloc: Global, rows: Rows, _arcs: &[Arc]) -> Result<Elimination, AllocError>
        requires on { AreRows rows.nodes (numbers_of rows.outs.items) (numbers_of rows.ins.items)
            _arcs.now (length _arcs.now) 0 }
        ensures on { IfOk result (IsElimination _arcs.now) }
        ensures nodes { IfOk result (λ made. made.rows.nodes ≡ rows.nodes) }
    {
        let mut out_starts: Vec<usize> = Vec::with_capacity(alloc, rows.nodes as usize + 1)?;
        out_starts.push(0)?;
        let mut in_starts: Vec<usize> = Vec::with_capacity(alloc, rows.nodes as usize + 1)?;
        in_starts.push(0)?;
        let last = shared_at(&rows.outs, &rows.ins, 0, rows.nodes);
        Ok(Elimination {
            rows,
            out_starts,
            heads: Vec::new(alloc),
            in_starts,
            tails: Vec::new(alloc),
            node: 0,
            last,
            tails_done: 0,
            heads_done: 0,
        })
    }

    /// Whether all nodes are eliminated.
    pub fn is_over(&self, _arcs: &[Arc]) -> bool
        requires on { IsElimination _arcs.now self.now }
        ensures over { result ≡ true → self.now.node ≡ self.now.rows.nodes }
        ensures stays { result ≡ false → self.now.node < self.now.rows.nodes }
    {
        self.node == self.rows.nodes
    }

    /// The node that is eliminated now.
    pub fn node(&self) -> u32
        ensures value { result ≡ self.now.node }
    {
        self.node
    }

    /// How many tails stand above that node.
    pub fn tails(&self, _arcs: &[Arc]) -> usize
        requires on { IsElimination _arcs.now self.now }
        requires more { self.now.node < self.now.rows.nodes }
        ensures value { result ≡
            length (row_at (numbers_of self.now.rows.ins.items) self.now.node) }
    {
        self.rows.ins[self.node as usize].len()
    }

    /// How many heads stand above it.
    pub fn heads(&self, _arcs: &[Arc]) -> usize
        requires on { IsElimination _arcs.now self.now }
        requires more { self.now.node < self.now.rows.nodes }
        ensures value { result ≡
            length (row_at (numbers_of self.now.rows.outs.items) self.now.node) }
    {
        self.rows.outs[self.node as usize].len()
    }

    /// One step: the row of one more tail or head above the node takes what stands above it; or
    /// the node is done.
    pub fn step(&mut self, alloc: Global, _arcs: &[Arc]) -> Result<(), AllocError>
        requires more { self.old.node < self.old.rows.nodes }
        requires on { IsElimination _arcs.now self.old }
        ensures on { OnOk result (IsElimination _arcs.now self.new) }
        ensures nodes { self.new.rows.nodes ≡ self.old.rows.nodes }
        ensures fewer { OnOk result (left_of self.new < left_of self.old) }
    {
        let node = self.node as usize;
        let tail = item(self.rows.ins[node].as_slice(), self.tails_done);
        if tail < BEHIND && tail <= self.last {
            raise_one(alloc, &mut self.rows.outs, tail, self.node, self.rows.nodes)?;
            self.tails_done += 1;
            return Ok(());
        }
        let head = item(self.rows.outs[node].as_slice(), self.heads_done);
        if head < BEHIND && head <= self.last {
            raise_one(alloc, &mut self.rows.ins, head, self.node, self.rows.nodes)?;
            self.heads_done += 1;
            return Ok(());
        }
        self.pass(alloc, tail, head, _arcs)
    }

    /// The node is done: its rows are laid behind those of before, and the next one comes.
    fn pass(
        &mut self,
        alloc: Global,
        _tail: u32,
        _head: u32,
        _arcs: &[Arc],
    ) -> Result<(), AllocError>
        requires more { self.old.node < self.old.rows.nodes }
        requires on { IsElimination _arcs.now self.old }
        requires done { ArePassed _arcs.now self.old _tail _head }
        ensures on { OnOk result (IsElimination _arcs.now self.new) }
        ensures nodes { self.new.rows.nodes ≡ self.old.rows.nodes }
        ensures fewer { OnOk result (left_of self.new < left_of self.old) }
    {
        lay(
            alloc,
            &mut self.rows.outs,
            &mut self.out_starts,
            &mut self.heads,
            self.node,
        )?;
        lay(
            alloc,
            &mut self.rows.ins,
            &mut self.in_starts,
            &mut self.tails,
            self.node,
        )?;
        self.node += 1;
        self.tails_done = 0;
        self.heads_done = 0;
        self.last = shared_at(&self.rows.outs, &self.rows.ins, self.node, self.rows.nodes);
        Ok(())
    }

    /// What leads where, once all nodes are eliminated.
    pub fn finish(self, _arcs: &[Arc]) -> Topology
        requires on { IsElimination _arcs.now self }
        requires over { self.node ≡ self.rows.nodes }
        ensures covers { Covers result _arcs.now }
        ensures nodes { result.nodes ≡ self.rows.nodes }
    {
        let Elimination {
            rows,
            out_starts,
            heads,
            in_starts,
            tails,
            node,
            last: _,
            tails_done: _,
            heads_done: _,
        } = self;
        let _ = rows;
        Topology {
            out_starts,
            heads,
            in_starts,
            tails,
            nodes: node,
        }
    }
}

/// A node that is both a head and a tail above a node; none where there is no such node.
fn shared_at(outs: &Vec<Vec<u32>>, ins: &Vec<Vec<u32>>, node: u32, nodes: u32) -> u32
    requires outs { AreLists nodes (numbers_of outs.now.items) }
    requires ins { AreLists nodes (numbers_of ins.now.items) }
    ensures shared { IsShared (row_at (numbers_of outs.now.items) node)
        (row_at (numbers_of ins.now.items) node) result }
{
    if node < nodes {
        first_shared(
            outs[node as usize].as_slice(),
            ins[node as usize].as_slice(),
        )
    } else {
        BEHIND
    }
}

/// The row of a node is laid behind those of lower nodes, and leaves its place empty.
fn lay(
    alloc: Global,
    rows: &mut Vec<Vec<u32>>,
    starts: &mut Vec<usize>,
    laid: &mut Vec<u32>,
    node: u32,
) -> Result<(), AllocError>
    requires in_range { node < length rows.old.items }
    ensures lays { OnOk result (Lays rows.old.items rows.new.items starts.old.items
        starts.new.items laid.old.items laid.new.items node) }
{
    laid.extend_from_slice(rows[node as usize].as_slice())?;
    starts.push(laid.len())?;
    rows[node as usize] = Vec::new(alloc);
    Ok(())
}
