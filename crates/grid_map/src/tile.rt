//! The tile of heights of a seed.

ghost use Rattle.std.specs.Prelude.{◌≡◌, ◌++◌, ◌<◌, ◌≤◌, IfOk, OnOk};
ghost use Rattle.grid_map.specs.Tile.{hgt_bytes, row_bytes, sample_bytes, sample_of};

use crate::plan::draw;
use std::alloc::{AllocError, Global};

/// How many rows a tile has, and how many samples a row.
const SIDE: u32 = 1201;

/// The bytes of the tile: 1201 rows from north to south, each of 1201 heights from west to east.
#[tactic(auto, unfolding(crate::specs::Tile::hgt_bytes))]
pub fn hgt_bytes(alloc: Global, seed: u32) -> Result<Vec<u8>, AllocError>
    requires lawful { seed ≤ 65535 }
    ensures exact { IfOk result (λ bytes. bytes.items ≡ hgt_bytes seed) }
{
    let mut bytes = Vec::with_capacity(alloc, 2_884_802)?;
    'rows: for place in 0..SIDE {
        append_row(&mut bytes, seed, 1200 - place)?;
    }
    Ok(bytes)
}

/// Appends a row, which is counted from the south.
#[tactic(auto, unfolding(crate::specs::Tile::row_bytes))]
fn append_row(bytes: &mut Vec<u8>, seed: u32, row: u32) -> Result<(), AllocError>
    requires lawful { seed ≤ 65535 }
    requires within { row ≤ 1200 }
    ensures exact { OnOk result (bytes.new.items ≡ bytes.old.items ++ row_bytes seed row) }
{
    'columns: for column in 0..SIDE {
        append_sample(bytes, sample(seed, row, column))?;
    }
    Ok(())
}

/// Appends a height, the high byte first.
fn append_sample(bytes: &mut Vec<u8>, height: u16) -> Result<(), AllocError>
    ensures exact { OnOk result (bytes.new.items ≡ bytes.old.items ++ sample_bytes height) }
{
    bytes.extend_from_slice(&[(height / 256) as u8, (height % 256) as u8])
}

/// The height in a row and a column.
#[tactic(auto, unfolding(crate::specs::Tile::sample_of))]
fn sample(seed: u32, row: u32, column: u32) -> u16
    requires lawful { seed ≤ 65535 }
    requires row { row ≤ 1200 }
    requires column { column ≤ 1200 }
    ensures exact { result ≡ sample_of seed row column }
{
    (draw(seed, row / 3 * 401 + column / 3) / 40) as u16
}
