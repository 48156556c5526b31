//! The least sums of all nodes, or of those near a target.

ghost use Rattle.std.specs.Prelude.{◌≡◌, ◌<◌, ◌≤◌, IfOk, None, length};
ghost use Rattle.overpass_graph.specs.Maps.{roads_of};
ghost use Rattle.least_sums.specs.Sums.{AreBelow, AreLeastSums, AreLeastSumsUpTo};

use crate::finding::Finding;
use crate::near::Near;
use crate::prices::LinkPrices;
use crate::sums::Sums;
use overpass_graph::Map;
use std::alloc::{AllocError, Global};

/// The least sum of each node of a map: the least that the prices of open links come to along a
/// walk from the node to the target, which may turn back; none where no walk leads there.
pub fn least_sums<P: LinkPrices>(
    alloc: Global,
    map: &Map,
    prices: &P,
    target: u32,
) -> Result<Sums, AllocError>
    requires priced { length map.now.links ≤ (P.priced prices.now).count }
    requires in_range { target < length map.now.nodes }
    ensures exact { IfOk result (λ found.
        AreLeastSums (roads_of map.now) (P.priced prices.now).price target found.sums) }
    ensures whole { IfOk result (λ found. found.radius ≡ None) }
    ensures small { IfOk result (λ found. AreBelow found.sums) }
{
    Finding::new(alloc, map, target, None)?.finish(alloc, map, prices)
}

/// The least sum of each node of a map up to a radius, by how far they are needed; or all sums,
/// where the node that is looked for has none or nothing is beyond the radius.
pub fn least_sums_near<P: LinkPrices>(
    alloc: Global,
    map: &Map,
    prices: &P,
    target: u32,
    near: Near,
) -> Result<Sums, AllocError>
    requires priced { length map.now.links ≤ (P.priced prices.now).count }
    requires in_range { target < length map.now.nodes }
    ensures exact { IfOk result (λ found.
        AreLeastSumsUpTo (roads_of map.now) (P.priced prices.now).price target found) }
    ensures small { IfOk result (λ found. AreBelow found.sums) }
{
    Finding::new(alloc, map, target, Some(near))?.finish(alloc, map, prices)
}
