//! The lengths of a grid's segments, as what it costs to go along them.

ghost use Rattle.std.specs.Prelude.{◌≡◌, ◌<◌, Some, IfOk, length, slice_get};
ghost use Rattle.grid_map.specs.Segments.{segments_of};
ghost use Rattle.grid_map.specs.Costs.{AreCheap, listed_costs, length_costs, length_list};
ghost use Rattle.grid_map.specs.Walks.{HaveSameWalks};

use crate::grid::Grid;
use geo_int::arrow;
use item_list::Items;
use std::alloc::{AllocError, Global};

/// The length of each segment in millimetres, in the order of the segments: as both lists of a
/// `GridSpace` it makes the length of a walk its cost.
pub fn segment_lengths(alloc: Global, grid: &Grid) -> Result<Items<Option<u128>>, AllocError>
    ensures exact { IfOk result (λ costs. costs ≡ length_list grid.now) }
    ensures fits { IfOk result (λ costs. length costs ≡ length (segments_of grid.now)) }
    ensures cheap { IfOk result AreCheap }
    ensures same { IfOk result (λ costs.
        HaveSameWalks grid.now (listed_costs grid.now costs costs) (length_costs grid.now)) }
{
    let mut costs = Vec::with_capacity(alloc, grid.segments() as usize)?;
    'segments: for i in 0..grid.segments() {
        costs.push(Some(length_at(grid, i)))?;
    }
    Ok(Items::from_vec(costs))
}

/// The length of the segment at this place.
fn length_at(grid: &Grid, i: u32) -> u128
    requires fits { i < length (segments_of grid.now) }
    ensures exact { slice_get (length_list grid.now) i ≡ Some (Some result) }
{
    let segment = grid.segment(i);
    match arrow(grid.spot(segment.a), grid.spot(segment.b)) {
        Some(found) => u128::from(found.len),
        None => unreachable!(),
    }
}
