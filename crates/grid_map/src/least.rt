//! Least walks across a grid.

ghost use Rattle.std.specs.Prelude.{◌≡◌, ◌<◌, IfOk, MatchOption, length};
ghost use Rattle.grid_map.specs.Plan.{cells_of};
ghost use Rattle.grid_map.specs.Segments.{segments_of};
ghost use Rattle.grid_map.specs.Costs.{AreCheap, listed_costs, length_costs};
ghost use Rattle.grid_map.specs.Walks.{IsLeastGridWalk, HasNoGridWalk};

use crate::grid::Grid;
use crate::lengths::segment_lengths;
use crate::space::GridSpace;
use item_list::Items;
use space_search::{Outcome, least};
use std::alloc::{AllocError, Global};

/// A walk across a grid.
#[derive(Drop)]
pub struct GridWalk {
    /// The cells from the first to the last.
    pub cells: Items<u32>,
    /// What its segments cost together.
    pub cost: u128,
}

/// A walk of least cost from one cell to another, and `None` where there is none; the costs are
/// those of `GridSpace::new`.
pub fn least_walk(
    alloc: Global,
    grid: &Grid,
    forward: &[Option<u128>],
    backward: &[Option<u128>],
    from: u32,
    to: u32,
) -> Result<Option<GridWalk>, AllocError>
    requires forward { length forward.now ≡ length (segments_of grid.now) }
    requires backward { length backward.now ≡ length (segments_of grid.now) }
    requires forward_cheap { AreCheap forward.now }
    requires backward_cheap { AreCheap backward.now }
    requires from { from < cells_of grid.now }
    requires to { to < cells_of grid.now }
    ensures exact { let costs = listed_costs grid.now forward.now backward.now in
        IfOk result (λ answer.
        MatchOption answer
        (HasNoGridWalk grid.now costs from to)
        (λ walk. IsLeastGridWalk grid.now costs from to walk.cells walk.cost)) }
{
    let space = GridSpace::new(grid, forward, backward, from, to);
    let limit = grid.cells() as u64;
    match least(alloc, &space, &mut (), limit)? {
        Outcome::Found(run) => {
            let cells = space.walk(alloc, run.choices.as_slice())?;
            let cost = run.cost;
            Ok(Some(GridWalk { cells, cost }))
        }
        Outcome::NoWay => Ok(None),
        // A cell keeps one label, so as many labels as cells are enough.
        Outcome::Budget => unreachable!(),
    }
}

/// A shortest walk from one cell to another with its length in millimetres, and `None` where there
/// is none.
pub fn shortest_walk(
    alloc: Global,
    grid: &Grid,
    from: u32,
    to: u32,
) -> Result<Option<GridWalk>, AllocError>
    requires from { from < cells_of grid.now }
    requires to { to < cells_of grid.now }
    ensures exact { let costs = length_costs grid.now in
        IfOk result (λ answer.
        MatchOption answer
        (HasNoGridWalk grid.now costs from to)
        (λ walk. IsLeastGridWalk grid.now costs from to walk.cells walk.cost)) }
{
    let lengths = segment_lengths(alloc, grid)?;
    least_walk(
        alloc,
        grid,
        lengths.as_slice(),
        lengths.as_slice(),
        from,
        to,
    )
}
