//! Heights of places from tiles of samples in the HGT layout.
#![tactic(auto)]

mod heights;
mod names;
mod tile_file;
mod tile_set;

pub use tile_file::{Tile, TileError};
pub use tile_set::Tiles;
