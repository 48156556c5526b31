//! How long a walk across a grid is.

ghost use Rattle.std.specs.Prelude.{◌≡◌, ◌≤◌};
ghost use Rattle.made_routes.specs.Lengths.{AreShortSteps, IsShortStep, distance_between, walk_length};

use geo_int::arrow;
use grid_map::Grid;

/// The distances between cells that follow each other, in millimetres together.
pub(crate) fn walk_length(grid: &Grid, cells: &[u32]) -> u128
    requires short { AreShortSteps grid.now cells.now }
    ensures exact { result ≡ walk_length grid.now cells.now }
{
    let mut sum = 0;
    'cells: for place in 1..cells.len() {
        sum += distance(grid, cells[place - 1], cells[place]);
    }
    sum
}

/// The distance between two cells that lie near each other, in millimetres.
fn distance(grid: &Grid, a: u32, b: u32) -> u128
    requires short { IsShortStep grid.now a b }
    ensures exact { result ≡ distance_between grid.now a b }
    ensures within { result ≤ 100000000 }
{
    match arrow(grid.spot(a), grid.spot(b)) {
        Some(found) => u128::from(found.len),
        None => unreachable!(),
    }
}
