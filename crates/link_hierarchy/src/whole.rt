//! All of it in one call.

ghost use Rattle.std.specs.Prelude.{◌<◌, ◌≡◌, IfOk, length};
ghost use Rattle.item_list.specs.Pages.{numbers_of};
ghost use Rattle.link_hierarchy.specs.Arcs.{AreWithin, Covers, arcs_of};
ghost use Rattle.link_hierarchy.specs.Rows.{AreRows, IsSorted};
ghost use Rattle.link_hierarchy.specs.Walks.{IsLeastSumUpTo};
ghost use Rattle.link_hierarchy.specs.declared.limits.TheConstants.{FAR};

use crate::arcs::Arc;
use crate::customize::customized;
use crate::elimination::Elimination;
use crate::potentials::Potentials;
use crate::rows::Rows;
use crate::topology::Topology;
use std::alloc::{AllocError, Global};

/// The least sum of the prices of arcs from a node to one of several up to the limit, none where no
/// walk leads to one. These come in ascending order.
pub fn least_sum(
    alloc: Global,
    nodes: u32,
    arcs: &[Arc],
    from: u32,
    targets: &[u32],
) -> Result<Option<u32>, AllocError>
    requires in_range { AreWithin nodes arcs.now }
    requires from { from < nodes }
    requires targets { IsSorted nodes targets.now }
    ensures exact { IfOk result (λ sum.
        IsLeastSumUpTo FAR (arcs_of arcs.now) from targets.now sum) }
{
    let topology = topology_of(alloc, nodes, arcs)?;
    let weights = customized(alloc, &topology, arcs)?;
    let mut found = Potentials::new(alloc, &topology)?;
    found.retarget(alloc, &topology, &weights, targets)?;
    found.at(alloc, &topology, &weights, from)
}

/// What leads where in a hierarchy that has an edge for each arc, and what it has to have besides.
pub fn topology_of(alloc: Global, nodes: u32, arcs: &[Arc]) -> Result<Topology, AllocError>
    requires in_range { AreWithin nodes arcs.now }
    ensures covers { IfOk result (λ topology. Covers topology arcs.now) }
    ensures nodes { IfOk result (λ topology. topology.nodes ≡ nodes) }
{
    let rows = rows_of(alloc, nodes, arcs)?;
    let mut made = Elimination::new(alloc, rows, arcs)?;
    'steps: while !made.is_over(arcs) {
        made.step(alloc, arcs)?;
    }
    Ok(made.finish(arcs))
}

/// The rows of all arcs.
fn rows_of(alloc: Global, nodes: u32, arcs: &[Arc]) -> Result<Rows, AllocError>
    requires in_range { AreWithin nodes arcs.now }
    ensures on { IfOk result (λ rows. AreRows rows.nodes (numbers_of rows.outs.items)
        (numbers_of rows.ins.items) arcs.now (length arcs.now) 0) }
    ensures nodes { IfOk result (λ rows. rows.nodes ≡ nodes) }
{
    let mut rows = Rows::new(alloc, nodes, arcs)?;
    'arcs: while rows.taken < arcs.len() {
        rows.take(alloc, arcs)?;
    }
    Ok(rows)
}
