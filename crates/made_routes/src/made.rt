//! The world of the map of a grid's own text.

ghost use Rattle.std.specs.Prelude.{IfOk};
ghost use Rattle.made_routes.specs.Made.{IsMadeWorld};
ghost use Rattle.route_ready.specs.World.{world_of};

use crate::making::made_map;
use grid_map::Grid;
use hgt_tiles::Tiles;
use lookup_table::Table;
use route_ready::World;
use std::alloc::{AllocError, Global};

/// The world of a table, a grid's own map and tiles.
pub(crate) fn made_world(
    alloc: Global,
    grid: &Grid,
    table: Table,
    tiles: Tiles,
) -> Result<World, AllocError>
    ensures exact { IfOk result (λ world. IsMadeWorld grid.now table tiles (world_of world)) }
{
    let map = made_map(alloc, grid)?;
    World::new(alloc, table, map, tiles)
}
