//! Cases on least sums by a hierarchy.

ghost use Rattle.std.specs.Prelude.{◌<◌, IfOk, OnOk, length};
ghost use Rattle.link_hierarchy.specs.Arcs.{AreWithin};
ghost use Rattle.link_hierarchy.specs.Rows.{IsSorted};

use case_inputs::Case;
use link_hierarchy::{Arc, least_sum};
use std::alloc::{AllocError, Global};

/// The calls on hierarchies.
pub(crate) const CALLS: [&str; 1] = ["hierarchy_sums"];

/// The most nodes of a case.
const MOST: u64 = 1000;

/// The least sums of all nodes to one of two: the words are how many nodes there are, the two
/// targets, and each arc by the node that it leaves, that to which it leads, and its price. `-`
/// stands for none. A target or an arc that isn't there is left out, and so is a second target that
/// isn't above the first.
pub(crate) fn answer(alloc: Global, case: &Case) -> Result<String, AllocError> {
    let nodes = case.count(1).min(MOST) as u32;
    let targets = targets(alloc, nodes, case.count(2), case.count(3))?;
    let arcs = arcs(alloc, case, nodes)?;
    line(alloc, nodes, arcs.as_slice(), targets.as_slice())
}

/// The targets, ascending.
fn targets(alloc: Global, nodes: u32, low: u64, high: u64) -> Result<Vec<u32>, AllocError>
    ensures sorted { IfOk result (λ targets. IsSorted nodes targets.items) }
{
    let mut targets: Vec<u32> = Vec::new(alloc);
    if low >= u64::from(nodes) {
        return Ok(targets);
    }
    targets.push(low as u32)?;
    if low >= high || high >= u64::from(nodes) {
        return Ok(targets);
    }
    targets.push(high as u32)?;
    Ok(targets)
}

/// The arcs between the nodes.
fn arcs(alloc: Global, case: &Case, nodes: u32) -> Result<Vec<Arc>, AllocError>
    ensures within { IfOk result (λ arcs. AreWithin nodes arcs.items) }
{
    let mut arcs: Vec<Arc> = Vec::new(alloc);
    let mut place = 4;
    'arcs: while place < case.len() {
        take(&mut arcs, case, place, nodes)?;
        place += 3;
    }
    Ok(arcs)
}

/// Takes the arc of three words, where it is one between the nodes.
fn take(arcs: &mut Vec<Arc>, case: &Case, place: usize, nodes: u32) -> Result<(), AllocError>
    requires fits { place < length case.now.words.items }
    requires within { AreWithin nodes arcs.old.items }
    ensures within { OnOk result (AreWithin nodes arcs.new.items) }
{
    let (from, to) = (case.count(place), case.count(place + 1));
    if from >= u64::from(nodes) {
        return Ok(());
    }
    if to >= u64::from(nodes) {
        return Ok(());
    }
    let arc = Arc {
        price: case.count(place + 2).min(u64::from(u32::MAX)) as u32,
        from: from as u32,
        to: to as u32,
    };
    arcs.push(arc)?;
    Ok(())
}

/// The sums of all nodes in a line.
fn line(alloc: Global, nodes: u32, arcs: &[Arc], targets: &[u32]) -> Result<String, AllocError>
    requires within { AreWithin nodes arcs.now }
    requires targets { IsSorted nodes targets.now }
{
    let mut line = String::new(alloc);
    'nodes: for node in 0..nodes {
        if node > 0 {
            line.push_str(" ")?;
        }
        match least_sum(alloc, nodes, arcs, node, targets)? {
            Some(sum) => write!(line, "{sum}")?,
            None => line.push_str("-")?,
        }
    }
    Ok(line)
}
