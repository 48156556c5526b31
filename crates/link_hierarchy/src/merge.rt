//! Rows of nodes put together.

ghost use Rattle.std.specs.Prelude.{◌≡◌, ◌<◌, ◌≤◌, ℕ, IfOk, IsTrue, length};
ghost use Rattle.link_hierarchy.specs.Eliminations.{IsShared};
ghost use Rattle.link_hierarchy.specs.Rows.{AreAscending, Holds, IsFirstAbove, IsItem, IsPassed, IsRow, IsSorted};

use std::alloc::{AllocError, Global};

/// What stands behind the last node of a row.
pub(crate) const BEHIND: u32 = 0xffff_ffff;

/// The nodes of a row, and those of another that are above a node, in their order.
pub(crate) fn merged(
    alloc: Global,
    into: &[u32],
    from: &[u32],
    low: u32,
    _nodes: u32,
) -> Result<Vec<u32>, AllocError>
    requires into { IsRow low _nodes into.now }
    requires from { IsSorted _nodes from.now }
    ensures row { IfOk result (λ made. IsRow low _nodes made.items) }
    ensures keeps { IfOk result (λ made. (x : ℕ) → Holds into.now x → Holds made.items x) }
    ensures takes { IfOk result (λ made.
        (x : ℕ) → Holds from.now x → low < x → Holds made.items x) }
{
    let long = into.len();
    let wide = from.len();
    let mut made: Vec<u32> = Vec::new(alloc);
    let mut i = 0;
    let skip = first_above(from, low);
    let mut j = skip;
    'merge: loop {
        let a = item(into, i);
        let b = item(from, j);
        let x = a.min(b);
        if x == BEHIND {
            return Ok(made);
        }
        made.push(x)?;
        i = passed(i, a, x, long);
        j = passed(j, b, x, wide);
    }
}

/// The first node that two rows hold, or what stands behind all.
pub(crate) fn first_shared(a: &[u32], b: &[u32]) -> u32
    ensures shared { IsShared a.now b.now result }
{
    let mut i = 0;
    let mut j = 0;
    'nodes: while i < a.len() && j < b.len() {
        if a[i] == b[j] {
            return a[i];
        }
        if a[i] < b[j] {
            i += 1;
        } else {
            j += 1;
        }
    }
    BEHIND
}

/// Whether a row holds the nodes of another that are above a node.
pub(crate) fn holds_all(into: &[u32], from: &[u32], low: u32) -> bool
    requires into { AreAscending into.now }
    requires from { AreAscending from.now }
    ensures sound { IsTrue result → (x : ℕ) → Holds from.now x → low < x → Holds into.now x }
{
    let mut i = 0;
    let mut j = first_above(from, low);
    if from.len() - j > into.len() {
        return false;
    }
    'nodes: while j < from.len() {
        let at = first_from(into, i, from[j]);
        if at == into.len() || into[at] != from[j] {
            return false;
        }
        i = at;
        j += 1;
    }
    true
}

/// The first place of a row, from a place on, whose node isn't below a node.
fn first_from(row: &[u32], start: usize, node: u32) -> usize
    requires start { start ≤ length row.now }
    ensures within { (start ≤ result) × (result ≤ length row.now) }
{
    let mut place = start;
    'places: while place < row.len() && row[place] < node {
        place += 1;
    }
    place
}

/// The first place of a row whose node is above a node.
fn first_above(row: &[u32], low: u32) -> usize
    requires sorted { AreAscending row.now }
    ensures value { IsFirstAbove row.now low result }
{
    let mut place = 0;
    'places: while place < row.len() {
        if row[place] > low {
            return place;
        }
        place += 1;
    }
    place
}

/// The node at a place of a row, or what stands behind it.
pub(crate) fn item(row: &[u32], place: usize) -> u32
    ensures value { IsItem row.now place result }
{
    if place < row.len() {
        row[place]
    } else {
        BEHIND
    }
}

/// The next place where the node at this one was taken.
fn passed(place: usize, item: u32, taken: u32, _long: usize) -> usize
    requires fits { item ≡ taken → place < _long }
    ensures value { IsPassed place item taken result }
{
    if item == taken { place + 1 } else { place }
}
