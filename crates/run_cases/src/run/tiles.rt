//! Tiles of heights that a word names.

use case_inputs::place_of;
use std::alloc::{AllocError, Global};

/// So many rows alike.
fn rows(alloc: Global, row: &[u8], count: u16) -> Result<Vec<u8>, AllocError> {
    let mut bytes = Vec::new(alloc);
    for _ in 0..count {
        bytes.extend_from_slice(row)?;
    }
    Ok(bytes)
}

/// The bytes of a row of 1,201 heights, each 20 metres above the one before it.
fn slope_row(alloc: Global) -> Result<Vec<u8>, AllocError> {
    let mut bytes = Vec::new(alloc);
    for column in 0i16..1201 {
        bytes.extend_from_slice(&column.saturating_mul(20).to_be_bytes())?;
    }
    Ok(bytes)
}

/// The bytes of a row of 1,201 heights that is flat up to column 480 and climbs by a metre a column
/// from there; at one column the height isn't known.
fn bank_row(alloc: Global, unknown: i16) -> Result<Vec<u8>, AllocError> {
    let mut bytes = Vec::new(alloc);
    for column in 0i16..1201 {
        let height = if column == unknown {
            i16::MIN
        } else {
            column.max(480).saturating_sub(380)
        };
        bytes.extend_from_slice(&height.to_be_bytes())?;
    }
    Ok(bytes)
}

/// The bytes of a tile of such rows, the northern one first; in the third row from the south a
/// height isn't known.
fn bank(alloc: Global) -> Result<Vec<u8>, AllocError> {
    let row = bank_row(alloc, -1)?;
    let unknown = bank_row(alloc, 484)?;
    let mut bytes = rows(alloc, row.as_slice(), 1198)?;
    bytes.extend_from_slice(unknown.as_slice())?;
    bytes.extend_from_slice(row.as_slice())?;
    bytes.extend_from_slice(row.as_slice())?;
    Ok(bytes)
}

/// The bytes of a tile of 1,201 rows that slopes up to the east by 20 metres a column, so 24
/// millimetres a microdegree.
fn slope(alloc: Global) -> Result<Vec<u8>, AllocError> {
    let row = slope_row(alloc)?;
    rows(alloc, row.as_slice(), 1201)
}

/// The bytes of a tile that is flat and has 3,601 rows, and one byte more.
fn longer(alloc: Global) -> Result<Vec<u8>, AllocError> {
    let mut bytes = rows(alloc, &[0; 7202], 3601)?;
    bytes.push(0)?;
    Ok(bytes)
}

/// The words that name tiles.
const TILES: [&str; 5] = ["slope", "bank", "flat", "largest", "longer"];

/// The bytes of the tile that a word names: `slope`, `bank`, `flat`, which has the height 0
/// everywhere, `largest`, which is flat too and has 3,601 rows, or `longer`, which has one byte
/// more; none for another word.
pub(crate) fn tile(alloc: Global, word: &[u8]) -> Result<Vec<u8>, AllocError> {
    match place_of(&TILES, word) {
        0 => slope(alloc),
        1 => bank(alloc),
        2 => rows(alloc, &[0; 2402], 1201),
        3 => rows(alloc, &[0; 7202], 3601),
        4 => longer(alloc),
        _ => Ok(Vec::new(alloc)),
    }
}
