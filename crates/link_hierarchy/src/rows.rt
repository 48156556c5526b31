//! The heads and the tails above each node, as rows that grow.

ghost use Rattle.std.specs.Prelude.{◌≡◌, ◌+◌, ◌-◌, ◌<◌, ◌≤◌, ◌⊎◌, ℕ, IfOk, IsTrue, OnOk, length, get_or, true, false};
ghost use Rattle.item_list.specs.Pages.{numbers_of};
ghost use Rattle.link_hierarchy.specs.Arcs.{AreWithin};
ghost use Rattle.link_hierarchy.specs.Rows.{AreLists, AreRows, Holds, IsHeld, Widens, row_at};

use crate::arcs::Arc;
use crate::merge::{holds_all, merged};
use std::alloc::{AllocError, Global};

/// The heads and the tails above each node of a graph, ascending, as far as its arcs were taken.
pub struct Rows {
    pub(crate) nodes: u32,
    pub(crate) taken: usize,
    pub(crate) outs: Vec<Vec<u32>>,
    pub(crate) ins: Vec<Vec<u32>>,
}

impl Drop for Rows {
    fn drop(self) {
        let Rows {
            nodes: _,
            taken: _,
            outs: _,
            ins: _,
        } = self;
    }
}

impl Rows {
    /// Empty rows for so many nodes.
    pub fn new(alloc: Global, nodes: u32, _arcs: &[Arc]) -> Result<Rows, AllocError>
        ensures on { IfOk result (λ rows. AreRows nodes (numbers_of rows.outs.items)
            (numbers_of rows.ins.items) _arcs.now rows.taken 0) }
        ensures nodes { IfOk result (λ rows. rows.nodes ≡ nodes) }
        ensures none { IfOk result (λ rows. rows.taken ≡ 0) }
    {
        let outs = bare(alloc, nodes)?;
        let ins = bare(alloc, nodes)?;
        Ok(Rows {
            nodes,
            taken: 0,
            outs,
            ins,
        })
    }

    /// Whether all arcs were taken.
    pub fn has_all(&self, arcs: &[Arc]) -> bool
        requires within { self.now.taken ≤ length arcs.now }
        ensures all { result ≡ true → self.now.taken ≡ length arcs.now }
        ensures more { result ≡ false → self.now.taken < length arcs.now }
    {
        self.taken == arcs.len()
    }

    /// Takes the next arc. Arcs that come in ascending order, by the node that they leave and then
    /// by that which they reach, take their places behind those of before.
    pub fn take(&mut self, alloc: Global, arcs: &[Arc]) -> Result<(), AllocError>
        requires in_range { AreWithin self.old.nodes arcs.now }
        requires there { self.old.taken < length arcs.now }
        requires on { AreRows self.old.nodes (numbers_of self.old.outs.items)
            (numbers_of self.old.ins.items) arcs.now self.old.taken 0 }
        ensures on { OnOk result (AreRows self.new.nodes (numbers_of self.new.outs.items)
            (numbers_of self.new.ins.items) arcs.now self.new.taken 0) }
        ensures nodes { self.new.nodes ≡ self.old.nodes }
        ensures more { OnOk result (self.new.taken ≡ self.old.taken + 1) }
    {
        let arc = arcs[self.taken];
        hold(
            alloc,
            &mut self.outs,
            &mut self.ins,
            arc.from,
            arc.to,
            self.nodes,
            arcs,
            self.taken,
        )?;
        self.taken += 1;
        Ok(())
    }
}

/// Empty rows.
fn bare(alloc: Global, nodes: u32) -> Result<Vec<Vec<u32>>, AllocError>
    ensures lists { IfOk result (λ rows. AreLists nodes (numbers_of rows.items)) }
{
    let mut rows: Vec<Vec<u32>> = Vec::with_capacity(alloc, nodes as usize)?;
    'nodes: for node in 0..nodes {
        let _ = node;
        rows.push(Vec::new(alloc))?;
    }
    Ok(rows)
}

/// The rows take an arc.
fn hold(
    alloc: Global,
    outs: &mut Vec<Vec<u32>>,
    ins: &mut Vec<Vec<u32>>,
    from: u32,
    to: u32,
    nodes: u32,
    _arcs: &[Arc],
    _taken: usize,
) -> Result<(), AllocError>
    requires in_range { (from < nodes) × (to < nodes) }
    requires rows { AreRows nodes (numbers_of outs.old.items) (numbers_of ins.old.items)
        _arcs.now _taken 0 }
    ensures rows { OnOk result
        (AreRows nodes (numbers_of outs.new.items) (numbers_of ins.new.items) _arcs.now _taken 0) }
    ensures held { OnOk result
        (from ≡ to ⊎ IsHeld (numbers_of outs.new.items) (numbers_of ins.new.items) from to) }
{
    if from < to {
        widen(alloc, outs, from, to, nodes)
    } else if to < from {
        widen(alloc, ins, to, from, nodes)
    } else {
        Ok(())
    }
}

/// A row takes a node: behind its last one where that is lower.
fn widen(
    alloc: Global,
    rows: &mut Vec<Vec<u32>>,
    low: u32,
    high: u32,
    nodes: u32,
) -> Result<(), AllocError>
    requires in_range { (low < high) × (high < nodes) }
    requires lists { AreLists nodes (numbers_of rows.old.items) }
    ensures widens { OnOk result
        (Widens nodes (numbers_of rows.old.items) (numbers_of rows.new.items) low) }
    ensures holds { OnOk result (Holds (row_at (numbers_of rows.new.items) low) high) }
{
    let row = rows[low as usize].as_slice();
    if is_behind(row, high) {
        rows[low as usize].push(high)?;
        return Ok(());
    }
    let made = merged(alloc, row, &[high], low, nodes)?;
    rows[low as usize] = made;
    Ok(())
}

/// Whether a node is above the last one of a row.
fn is_behind(row: &[u32], high: u32) -> bool
    ensures value { IsTrue result →
        (length row.now ≡ 0) ⊎ (get_or row.now (length row.now - 1) 0 < high) }
{
    let long = row.len();
    long == 0 || row[long - 1] < high
}

/// The row of a node takes what stands above it in the row of a lower one.
pub(crate) fn raise_one(
    alloc: Global,
    rows: &mut Vec<Vec<u32>>,
    high: u32,
    node: u32,
    nodes: u32,
) -> Result<(), AllocError>
    requires in_range { (node < high) × (high < nodes) }
    requires lists { AreLists nodes (numbers_of rows.old.items) }
    ensures widens { OnOk result
        (Widens nodes (numbers_of rows.old.items) (numbers_of rows.new.items) high) }
    ensures takes { OnOk result ((y : ℕ) → Holds (row_at (numbers_of rows.old.items) node) y →
        high < y → Holds (row_at (numbers_of rows.new.items) high) y) }
{
    let into = rows[high as usize].as_slice();
    let from = rows[node as usize].as_slice();
    if holds_all(into, from, high) {
        return Ok(());
    }
    let made = merged(alloc, into, from, high, nodes)?;
    rows[high as usize] = made;
    Ok(())
}
