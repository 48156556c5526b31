//! Worlds of texts.

use case_inputs::{map_of, table_of, tiles_of};
use lookup_table::Table;
use overpass_graph::Map;
use route_ready::World;
use std::alloc::Global;

/// The world of a tag table's and a map's text, and of a tile's name; none where a text is refused.
pub(crate) fn world_of(alloc: Global, table: &[u8], map: &[u8], tile: &[u8]) -> Option<World> {
    match table_of(alloc, table) {
        Some(table) => with_table(alloc, table, map, tile),
        None => None,
    }
}

/// The world of a tag table, a map's text and a tile's name; none where the text is refused.
fn with_table(alloc: Global, table: Table, map: &[u8], tile: &[u8]) -> Option<World> {
    match map_of(alloc, map) {
        Ok(map) => with_map(alloc, table, map, tile),
        Err(_) => None,
    }
}

/// The world of a tag table, a map and a tile's name.
fn with_map(alloc: Global, table: Table, map: Map, tile: &[u8]) -> Option<World> {
    match tiles_of(alloc, tile) {
        Ok(tiles) => World::new(alloc, table, map, tiles).ok(),
        Err(_) => None,
    }
}
