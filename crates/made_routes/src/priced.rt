//! Walks across a grid that cost least by a profile.

ghost use Rattle.std.specs.Prelude.{◌≡◌, ◌*◌, ◌<◌, ◌≤◌, [], Err, IfOk, length};
ghost use Rattle.grid_map.specs.Plan.{cells_of};
ghost use Rattle.grid_map.specs.Segments.{segments_of};
ghost use Rattle.made_routes.specs.Costs.{costs_by};
ghost use Rattle.made_routes.specs.Made.{Makes, RefusesNothing};
ghost use Rattle.made_routes.specs.Maps.{IsGridMap};
ghost use Rattle.made_routes.specs.Walks.{IsProfileRefused, IsWalkAnswer, IsWalkBy, IsWalkOver, WalkQuestion};
ghost use Rattle.profile_text.specs.Expr.{sections_in};
ghost use Rattle.route_ready.specs.Readiness.{ready_of};
ghost use Rattle.route_ready.specs.World.{world_of};
ghost use Rattle.route_ready.specs.Worlds.{binding_in};
ghost use Rattle.way_class.specs.Links.{links_of};

use crate::error::{MadeError, of_route};
use crate::lengths::walk_length;
use crate::made::made_world;
use crate::prices::segment_prices;
use context_check::Overrides;
use grid_map::{Grid, least_walk};
use hgt_tiles::Tiles;
use item_list::Items;
use lookup_table::Table;
use profile_text::Profile;
use route_ready::{Ready, World, prepare};
use std::alloc::{AllocError, Global};
use way_class::Bound;

/// A walk across a grid, its length and what it costs by a profile.
#[derive(Drop)]
pub struct PricedWalk {
    /// The cells from the first to the last.
    pub cells: Items<u32>,
    /// The distances between cells that follow each other, in millimetres.
    pub length: u128,
    /// What its segments cost together, in millionths.
    pub cost: u128,
}

/// A walk of least cost by a profile from one cell of a grid to another, and `None` where there is
/// none: the profile is bound without overrides to the grid's own map, without heights, and a
/// segment costs the distance part of its link.
pub fn walk_by_profile(
    alloc: Global,
    grid: &Grid,
    from: u32,
    to: u32,
    table: Table,
    profile: &Profile,
) -> Result<Option<PricedWalk>, MadeError>
    requires from { from < cells_of grid.now }
    requires to { to < cells_of grid.now }
    ensures exact { let question : WalkQuestion = record {
      plan = grid.now;
      from = from;
      to = to;
      table = table;
      sections = sections_in profile.now;
    } in
        Makes (IsWalkAnswer question) (IsProfileRefused question) result }
{
    let world = made_world(alloc, grid, table, Tiles::new(alloc))?;
    walk_in(alloc, grid, from, to, &world, profile)
}

/// A walk of least cost by a profile that is bound without overrides to a world.
fn walk_in(
    alloc: Global,
    grid: &Grid,
    from: u32,
    to: u32,
    world: &World,
    profile: &Profile,
) -> Result<Option<PricedWalk>, MadeError>
    requires from { from < cells_of grid.now }
    requires to { to < cells_of grid.now }
    requires links { IsGridMap grid.now (world_of world.now).map }
    ensures exact { let binding = binding_in (world_of world.now) (sections_in profile.now) [] in
        Makes (IsWalkBy grid.now from to binding) (λ error. ready_of binding ≡ Err error) result }
{
    let overrides = Overrides::new(alloc);
    match prepare(alloc, world, profile, &overrides) {
        Ok(ready) => walk_by(alloc, grid, from, to, &ready),
        Err(error) => Err(of_route(error)),
    }
}

/// A walk of least cost by a profile that is ready.
fn walk_by(
    alloc: Global,
    grid: &Grid,
    from: u32,
    to: u32,
    ready: &Ready,
) -> Result<Option<PricedWalk>, MadeError>
    requires from { from < cells_of grid.now }
    requires to { to < cells_of grid.now }
    requires links { 2 * length (segments_of grid.now) ≤ (links_of ready.now.bound.value).count }
    ensures exact { let costs = costs_by grid.now (links_of ready.now.bound.value) in
        Makes (IsWalkOver grid.now costs from to) RefusesNothing result }
{
    match walk_over(alloc, grid, from, to, &ready.bound) {
        Ok(walk) => Ok(walk),
        Err(_) => Err(MadeError::NoMemory),
    }
}

/// A walk of least cost over the links of a profile that is bound to the grid's map.
fn walk_over(
    alloc: Global,
    grid: &Grid,
    from: u32,
    to: u32,
    bound: &Bound,
) -> Result<Option<PricedWalk>, AllocError>
    requires from { from < cells_of grid.now }
    requires to { to < cells_of grid.now }
    requires links { 2 * length (segments_of grid.now) ≤ (links_of bound.now).count }
    ensures exact { let costs = costs_by grid.now (links_of bound.now) in
        IfOk result (IsWalkOver grid.now costs from to) }
{
    let count = grid.segments();
    let forward = segment_prices(alloc, bound, 0, count)?;
    let backward = segment_prices(alloc, bound, 1, count)?;
    match least_walk(
        alloc,
        grid,
        forward.as_slice(),
        backward.as_slice(),
        from,
        to,
    )? {
        Some(walk) => {
            let length = walk_length(grid, walk.cells.as_slice());
            Ok(Some(PricedWalk {
                cells: walk.cells,
                length,
                cost: walk.cost,
            }))
        }
        None => Ok(None),
    }
}
