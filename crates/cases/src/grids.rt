//! Cases on grids.

ghost use Rattle.std.specs.Prelude.{◌≡◌, ◌<◌};
ghost use Rattle.grid_map.specs.Plan.{cells_of};

use crate::texts::{NO_CALL, OUTSIDE};
use case_inputs::{Case, place_of};
use grid_map::{Grid, GridWalk, least_walk, shortest_walk};
use std::alloc::{AllocError, Global};

/// The calls on grids; the last two take two cells.
pub(crate) const CALLS: [&str; 4] = ["segments", "cell", "shortest", "one_way"];

/// The answer to a case on the grid of a seed, a width and a height.
pub(crate) fn answer(alloc: Global, case: &Case) -> Result<String, AllocError> {
    let (seed, w, h) = (case.count(1), case.count(2), case.count(3));
    if seed > 65_535 || w < 1 || w > 1000 || h < 1 || h > 1000 {
        return String::from_str(alloc, OUTSIDE);
    }
    let grid = Grid::made(alloc, seed as u32, w as u32, h as u32)?;
    of_grid(alloc, &grid, (w as u32) * (h as u32), case)
}

/// The answer to a case on this grid of so many cells.
fn of_grid(alloc: Global, grid: &Grid, cells: u32, case: &Case) -> Result<String, AllocError>
    requires cells { cells ≡ cells_of grid.now }
{
    let from = case.count(4);
    match place_of(&CALLS, case.word(0)) {
        0 => segments(alloc, grid),
        _ if from >= u64::from(cells) => String::from_str(alloc, OUTSIDE),
        1 => cell(alloc, grid, from as u32),
        call => between(alloc, grid, cells, from as u32, case, call),
    }
}

/// The answer of a call on a cell and one behind it, of so many cells.
fn between(
    alloc: Global,
    grid: &Grid,
    cells: u32,
    from: u32,
    case: &Case,
    call: usize,
) -> Result<String, AllocError>
    requires cells { cells ≡ cells_of grid.now }
    requires from { from < cells }
{
    let to = case.count(5);
    match call {
        _ if to >= u64::from(cells) => String::from_str(alloc, OUTSIDE),
        2 => shortest(alloc, grid, from, to as u32),
        3 => one_way(alloc, grid, from, to as u32),
        _ => String::from_str(alloc, NO_CALL),
    }
}

/// The place of a cell.
fn cell(alloc: Global, grid: &Grid, at: u32) -> Result<String, AllocError>
    requires fits { at < cells_of grid.now }
{
    let spot = grid.spot(at);
    format!(in alloc; "{} {}", spot.lon(), spot.lat())
}

/// The number, the two cells and the class of each segment.
fn segments(alloc: Global, grid: &Grid) -> Result<String, AllocError> {
    let mut text = format!(in alloc; "{}", grid.segments())?;
    tell(&mut text, grid)?;
    Ok(text)
}

/// Writes the segments of a grid.
fn tell(text: &mut String, grid: &Grid) -> Result<(), AllocError> {
    for i in 0..grid.segments() {
        let segment = grid.segment(i);
        write!(
            text,
            " {},{},{},{}",
            segment.k, segment.a, segment.b, segment.class
        )?;
    }
    Ok(())
}

/// The cost and the cells of a walk.
fn walk_text(alloc: Global, walk: &Option<GridWalk>) -> Result<String, AllocError> {
    let Some(walk) = walk else {
        return String::from_str(alloc, "none");
    };
    let mut text = format!(in alloc; "{}", walk.cost)?;
    for cell in walk.cells.as_slice() {
        write!(text, " {cell}")?;
    }
    Ok(text)
}

/// A shortest walk between two cells.
fn shortest(alloc: Global, grid: &Grid, from: u32, to: u32) -> Result<String, AllocError>
    requires from { from < cells_of grid.now }
    requires to { to < cells_of grid.now }
{
    let walk = shortest_walk(alloc, grid, from, to)?;
    walk_text(alloc, &walk)
}

/// A least walk over the only segment of a grid, which may not be walked forward and costs 7
/// backward.
fn one_way(alloc: Global, grid: &Grid, from: u32, to: u32) -> Result<String, AllocError>
    requires from { from < cells_of grid.now }
    requires to { to < cells_of grid.now }
{
    if grid.segments() != 1 {
        return String::from_str(alloc, OUTSIDE);
    }
    let forward = [None];
    let backward = [Some(7)];
    let walk = least_walk(alloc, grid, &forward, &backward, from, to)?;
    walk_text(alloc, &walk)
}
