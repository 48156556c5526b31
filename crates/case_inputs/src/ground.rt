//! The tiles that a word names.

use hgt_tiles::{Tile, Tiles};
use std::alloc::{AllocError, Global};

/// The bytes of a row of 1,201 heights, each 20 metres above the one before it.
fn slope_row(alloc: Global) -> Result<Vec<u8>, AllocError> {
    let mut bytes = Vec::new(alloc);
    for column in 0i16..1201 {
        bytes.extend_from_slice(&column.saturating_mul(20).to_be_bytes())?;
    }
    Ok(bytes)
}

/// The bytes of a tile of 1,201 such rows: it slopes up to the east by 24 millimetres a
/// microdegree.
fn slope(alloc: Global) -> Result<Vec<u8>, AllocError> {
    let row = slope_row(alloc)?;
    let mut bytes = Vec::new(alloc);
    for _ in 0..1201 {
        bytes.extend_from_slice(row.as_slice())?;
    }
    Ok(bytes)
}

/// A sample of a tile that is flat up to column 480 and climbs by a metre a column from there; one
/// sample is void.
fn bank_sample(row: u16, column: i16) -> i16 {
    if row == 1198 && column == 484 {
        i16::MIN
    } else {
        column.max(480).saturating_sub(380)
    }
}

/// The bytes of that tile, the northern row first.
fn bank(alloc: Global) -> Result<Vec<u8>, AllocError> {
    let mut bytes = Vec::new(alloc);
    for row in 0u16..1201 {
        for column in 0i16..1201 {
            bytes.extend_from_slice(&bank_sample(row, column).to_be_bytes())?;
        }
    }
    Ok(bytes)
}

/// Adds the tile of a file, unless its name or its size is at fault.
fn add(alloc: Global, tiles: &mut Tiles, name: &[u8], bytes: &[u8]) -> Result<(), AllocError> {
    match Tile::read(alloc, name, bytes) {
        Ok(tile) => tiles.add(tile),
        Err(_) => Ok(()),
    }
}

/// The tiles that a word names: `slope`, which lies at the equator; `bank`, which lies at 49
/// degrees north and 8 degrees east; or none.
pub fn tiles_of(alloc: Global, word: &[u8]) -> Result<Tiles, AllocError> {
    let mut tiles = Tiles::new(alloc);
    if word == b"slope".as_slice() {
        let bytes = slope(alloc)?;
        add(alloc, &mut tiles, b"N00E000.hgt", bytes.as_slice())?;
    }
    if word == b"bank".as_slice() {
        let bytes = bank(alloc)?;
        add(alloc, &mut tiles, b"N49E008.hgt", bytes.as_slice())?;
    }
    Ok(tiles)
}
