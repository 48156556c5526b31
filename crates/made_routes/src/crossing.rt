//! The route across the hills of a grid.

ghost use Rattle.std.specs.Prelude.{◌≡◌, ◌<◌, ◌≤◌, ◌^◌, [], Ok, Err, IfOk, length};
ghost use Rattle.grid_map.specs.Plan.{IsPlan, cells_of, plan_of};
ghost use Rattle.grid_map.specs.Segments.{segments_of};
ghost use Rattle.made_routes.specs.Hills.{IsHillTrack, IsHillWorld, IsHillsFound, IsHillsRefusal, corners_asked};
ghost use Rattle.made_routes.specs.Made.{Makes};
ghost use Rattle.profile_text.specs.Expr.{sections_in};
ghost use Rattle.route_engine.specs.Answers.{IsAnswer};
ghost use Rattle.route_engine.specs.Settings.{Question};
ghost use Rattle.route_http.specs.Seen.{asked, places};
ghost use Rattle.route_ready.specs.World.{world_of};
ghost use Rattle.route_ready.specs.Worlds.{binding_in};
ghost use Rattle.track_legs.specs.Sums.{total_cost};

use crate::error::{MadeError, of_route};
use crate::made::made_world;
use crate::summary::Hills;
use crate::texts::{hill_profile, hill_table, hill_tiles};
use crate::total::total_cost;
use context_check::Overrides;
use geo_int::Spot;
use grid_map::Grid;
use item_list::Items;
use profile_text::Profile;
use route_engine::route;
use route_http::{Form, Request};
use route_ready::World;
use std::alloc::{AllocError, Global};
use track_legs::Track;

/// How many labels the search settles at most.
const LABELS: u64 = 10_000_000;

/// The route from the first cell of a grid to the last, with the heights of its seed, by a profile
/// that minds hills.
pub fn hills(alloc: Global, seed: u32, w: u32, h: u32) -> Result<Hills, MadeError>
    requires lawful { IsPlan (plan_of seed w h) }
    ensures exact { let plan = plan_of seed w h in
        Makes (IsHillsFound plan) (IsHillsRefusal plan) result }
{
    let grid = Grid::made(alloc, seed, w, h)?;
    match crossing(alloc, &grid, seed) {
        Ok(track) => Ok(told(&grid, &track)),
        Err(error) => Err(error),
    }
}

/// What is told of a track.
fn told(grid: &Grid, track: &Track) -> Hills
    requires costs { total_cost track.now.legs < 2 ^ 127 }
    ensures cost { result.cost ≡ total_cost track.now.legs }
    ensures nodes { result.nodes ≡ cells_of grid.now }
    ensures segments { result.segments ≡ length (segments_of grid.now) }
{
    Hills {
        cost: total_cost(track.legs.as_slice()),
        nodes: cell_count(grid),
        segments: grid.segments(),
    }
}

/// How many cells a grid has.
fn cell_count(grid: &Grid) -> u32
    ensures exact { result ≡ cells_of grid.now }
    ensures some { 1 ≤ cells_of grid.now }
{
    grid.width() * grid.height()
}

/// The track between opposite corners.
fn crossing(alloc: Global, grid: &Grid, seed: u32) -> Result<Track, MadeError>
    requires seed { seed ≡ grid.now.seed }
    ensures exact { Makes (IsHillTrack grid.now) (IsHillsRefusal grid.now) result }
{
    let world = hill_world(alloc, grid, seed)?;
    crossing_in(alloc, grid, &world)
}

/// The world of a grid's own map with the tile of its seed.
fn hill_world(alloc: Global, grid: &Grid, seed: u32) -> Result<World, AllocError>
    requires seed { seed ≡ grid.now.seed }
    ensures exact { IfOk result (λ world. IsHillWorld grid.now (world_of world)) }
{
    // What the grid promises of itself.
    let _segments = grid.segments();
    let table = hill_table(alloc)?;
    let tiles = hill_tiles(alloc, seed)?;
    made_world(alloc, grid, table, tiles)
}

/// The track between opposite corners over that world.
fn crossing_in(alloc: Global, grid: &Grid, world: &World) -> Result<Track, MadeError>
    ensures exact { IsHillWorld grid.now (world_of world.now) →
        Makes (IsHillTrack grid.now) (IsHillsRefusal grid.now) result }
{
    let profile = hill_profile(alloc)?;
    crossing_by(alloc, grid, world, &profile)
}

/// The track between opposite corners over a world by a profile.
fn crossing_by(
    alloc: Global,
    grid: &Grid,
    world: &World,
    profile: &Profile,
) -> Result<Track, MadeError>
    ensures exact { let question : Question = record {
      binding = binding_in (world_of world.now) (sections_in profile.now) [];
      asked = corners_asked grid.now;
    } in
        Makes (λ track. IsAnswer question (Ok track)) (λ error. IsAnswer question (Err error))
        result }
{
    let request = corners(alloc, grid)?;
    match route(alloc, world, profile, request) {
        Ok(track) => Ok(track),
        Err(error) => Err(of_route(error)),
    }
}

/// The request between opposite corners.
fn corners(alloc: Global, grid: &Grid) -> Result<Request, AllocError>
    ensures exact { IfOk result (λ request. asked request ≡ corners_asked grid.now) }
{
    let waypoints = corner_spots(alloc, grid)?;
    Ok(Request {
        waypoints,
        circles: Items::new(alloc),
        profile: Items::new(alloc),
        alternative: 0,
        form: Form::GeoJson,
        labels: LABELS,
        overrides: Overrides::new(alloc),
        runs: false,
        cost: 0,
        sources: Items::new(alloc),
        destinations: Items::new(alloc),
    })
}

/// The spots of the first cell and the last.
fn corner_spots(alloc: Global, grid: &Grid) -> Result<Items<Spot>, AllocError>
    ensures exact { IfOk result (λ spots. places spots ≡ (corners_asked grid.now).waypoints) }
{
    let last = cell_count(grid) - 1;
    let first_spot = grid.spot(0);
    let last_spot = grid.spot(last);
    let mut spots = Items::new(alloc);
    spots.push(first_spot)?;
    spots.push(last_spot)?;
    Ok(spots)
}
