//! Sums that say nothing.

ghost use Rattle.std.specs.Prelude.{◌≡◌, ℕ, IfOk, Some};
ghost use Rattle.least_sums.specs.Prices.{Prices};
ghost use Rattle.least_sums.specs.Sums.{AreBelow, AreLeastSumsUpTo};
ghost use Rattle.overpass_graph.specs.Maps.{roads_of};

use crate::sums::{Kept, Sums};
use item_list::Paged;
use overpass_graph::Map;
use std::alloc::{AllocError, Global};

/// The least sum of each node of a map up to a radius of 0, whatever the prices and the target: it
/// is 0, which says nothing. Nothing is looked for.
pub fn unknown_sums(alloc: Global, map: &Map) -> Result<Sums, AllocError>
    ensures exact { IfOk result (λ found. (prices : Prices) (target : ℕ) →
        AreLeastSumsUpTo (roads_of map.now) prices target found) }
    ensures small { IfOk result (λ found. AreBelow found.sums) }
    ensures radius { IfOk result (λ found. found.radius ≡ Some 0) }
{
    let sums = Paged::new(alloc, 0u64, map.nodes() as usize)?;
    Ok(Sums {
        kept: Kept::Near { sums, radius: 0 },
    })
}
