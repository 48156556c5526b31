//! The map of a grid's own text.

ghost use Rattle.std.specs.Prelude.{◌≡◌, IfOk};
ghost use Rattle.grid_map.specs.MapText.{overpass_text};
ghost use Rattle.made_routes.specs.Maps.{IsGridMap};
ghost use Rattle.overpass_graph.specs.Builder.{IsMapOfText};

use crate::law::grids_are_maps;
use grid_map::Grid;
use overpass_graph::{Map, MapBuilder, MapError};
use std::alloc::{AllocError, Global};

/// The room for a piece of a text.
const ROOM: usize = 65_536;

/// The map of a grid's own text, which is fed piece by piece: no more of it than a piece is kept.
/// The text has no fault, so nothing but want of memory is refused.
pub fn made_map(alloc: Global, grid: &Grid) -> Result<Map, AllocError>
    ensures exact { IfOk result (IsMapOfText (overpass_text grid.now)) }
    ensures value { IfOk result (IsGridMap grid.now) }
{
    // What the grid promises of itself, and what is known of its text.
    let _segments = grid.segments();
    grids_are_maps();
    let mut builder = MapBuilder::new(alloc);
    let mut piece = Vec::with_capacity(alloc, ROOM)?;
    let mut next = 0;
    'pieces: while next < grid.map_parts() {
        piece.clear();
        next = grid.append_parts(next, &mut piece);
        match builder.feed(piece.as_slice()) {
            Ok(()) => {}
            Err(error) => return Err(no_memory(error)),
        }
    }
    match builder.finish() {
        Ok(map) => Ok(map),
        Err(error) => Err(no_memory(error)),
    }
}

/// What is left of a refusal of the text: want of memory.
fn no_memory(_error: MapError) -> AllocError
    requires only { _error ≡ MapError.NoMemory }
{
    AllocError
}
