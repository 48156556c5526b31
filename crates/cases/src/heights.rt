//! Cases on tiles of heights and the heights that they give.

use crate::texts::{NO_CALL, perhaps};
use case_inputs::{Case, place_of};
use geo_int::Spot;
use hgt_tiles::{Tile, TileError, Tiles};
use std::alloc::{AllocError, Global};

/// The tiles that the cases so far have added.
#[derive(Drop)]
pub(crate) struct Ground {
    tiles: Tiles,
}

impl Ground {
    /// No tile.
    pub(crate) fn new(alloc: Global) -> Ground {
        Ground {
            tiles: Tiles::new(alloc),
        }
    }
}

/// The calls on heights.
pub(crate) const CALLS: [&str; 4] = ["tiles", "tile", "height", "tile_of_zeros"];

/// The answer to a case on heights.
pub(crate) fn answer(
    alloc: Global,
    case: &Case,
    ground: &mut Ground,
) -> Result<String, AllocError> {
    match place_of(&CALLS, case.word(0)) {
        0 => cleared(alloc, ground),
        1 => added(alloc, case, ground),
        2 => height(alloc, case, ground),
        3 => zeros(alloc, case),
        _ => String::from_str(alloc, NO_CALL),
    }
}

/// Forgets the tiles.
fn cleared(alloc: Global, ground: &mut Ground) -> Result<String, AllocError> {
    ground.tiles = Tiles::new(alloc);
    String::from_str(alloc, "no tile")
}

/// The sample in a column and a row, both counted from the south-west, of a landscape.
fn sample(kind: usize, column: u32, row: u32) -> i16 {
    match kind {
        // A slope to the east: 20 metres a column, so 24 millimetres a microdegree.
        0 => (column.min(1200) * 20) as i16,
        // 100 metres as far as column 480, then a metre a column, and one void.
        1 if row == 2 && column == 484 => i16::MIN,
        1 => (column.max(480).min(1200) - 380) as i16,
        2 => (row.min(3600) as i16) - (column.min(3600) as i16),
        _ => -7,
    }
}

/// The bytes of a file of a landscape.
fn file(alloc: Global, landscape: &[u8], steps: u32) -> Result<Vec<u8>, AllocError> {
    let kind = place_of(&["slope", "hill", "south"], landscape);
    let mut bytes = Vec::new(alloc);
    for row in 0..steps.saturating_add(1) {
        for column in 0..steps.saturating_add(1) {
            let height = sample(kind, column, steps.saturating_sub(row));
            bytes.extend_from_slice(&height.to_be_bytes())?;
        }
    }
    Ok(bytes)
}

/// Why a file is no tile.
fn reason(alloc: Global, error: TileError) -> Result<String, AllocError> {
    match error {
        TileError::Name => String::from_str(alloc, "name"),
        TileError::Size => String::from_str(alloc, "size"),
        TileError::NoMemory => Err(AllocError),
    }
}

/// Adds the tile of a name, a number of steps and a landscape.
fn added(alloc: Global, case: &Case, ground: &mut Ground) -> Result<String, AllocError> {
    let steps = case.count(2).min(3600) as u32;
    let bytes = file(alloc, case.word(3), steps)?;
    match Tile::read(alloc, case.word(1), bytes.as_slice()) {
        Ok(tile) => {
            ground.tiles.add(tile)?;
            format!(in alloc; "added, {} bytes", bytes.len())
        }
        Err(error) => reason(alloc, error),
    }
}

/// The height of a place in the tiles.
fn height(alloc: Global, case: &Case, ground: &Ground) -> Result<String, AllocError> {
    match Spot::new(case.signed(1), case.signed(2)) {
        Some(spot) => perhaps(alloc, ground.tiles.height(spot).map(i128::from)),
        None => String::from_str(alloc, "no place"),
    }
}

/// What becomes of a file of so many zeros under a name.
fn zeros(alloc: Global, case: &Case) -> Result<String, AllocError> {
    let size = case.count(2).min(30_000_000) as usize;
    let bytes = vec![in alloc; 0u8; size]?;
    match Tile::read(alloc, case.word(1), bytes.as_slice()) {
        Ok(_) => String::from_str(alloc, "read"),
        Err(error) => reason(alloc, error),
    }
}
