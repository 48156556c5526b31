//! The tile of a word.

use case_inputs::tiles_of;
use hgt_tiles::{Tile, Tiles};
use std::alloc::{AllocError, Global};
use std::{fs, io};

/// The tile of these bytes under this name, where they are one.
fn tile_of(alloc: Global, name: &[u8], bytes: &[u8]) -> Result<Tiles, AllocError> {
    let mut tiles = Tiles::new(alloc);
    if let Ok(tile) = Tile::read(alloc, name, bytes) {
        tiles.add(tile)?;
    }
    Ok(tiles)
}

/// The tile of a file, where it is one.
fn tile_in(rt: &HostRuntime, name: &str) -> io::Result<Tiles> {
    let bytes = fs::read(rt, name)?;
    Ok(tile_of(rt.alloc(), name.as_bytes(), bytes.as_slice())?)
}

/// The tile of the file that the word at a place names; those that are usual where there is no
/// word.
pub(crate) fn tiles_at(
    rt: &HostRuntime,
    words: &[String],
    place: usize,
    usual: &[u8],
) -> io::Result<Tiles> {
    match words.get(place) {
        Some(name) => tile_in(rt, name.as_str()),
        None => Ok(tiles_of(rt.alloc(), usual)?),
    }
}
