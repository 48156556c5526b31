//! A tile of samples, and how it is read from a file.

ghost use Rattle.std.specs.Prelude.{◌≡◌, ◌↔◌, ◌<◌, ◌≤◌, ◌*◌, ◌+◌, ◌/◌, IfOk, IfSome, unsigned_abs, IsNone, IsSome, Ok, Err, length};
ghost use Rattle.hgt_tiles.specs.Name.{corner_of_name};
ghost use Rattle.hgt_tiles.specs.File.{relief_of_file, samples_of, steps_of};
ghost use Rattle.hgt_tiles.specs.Height.{height_on};

use crate::heights::{Cell, height_between};
use crate::names::{Corner, corner_of};
use byteorder::{BigEndian, ByteOrder};
use std::alloc::{AllocError, Global};
use std::marker::Model;

/// The samples of one square degree.
#[derive(Drop)]
pub struct Tile {
    samples: Vec<i16>,
    steps: u32,
    corner: Corner,
}

impl Model for Tile {
    ghost use Rattle.hgt_tiles.specs.Relief.{Relief, IsRelief, relief};

    ghost Value = { Relief };

    ghost view = { λ t. relief t.corner t.steps t.samples.items };

    ghost invariant = { λ t. IsRelief (relief t.corner t.steps t.samples.items) };
}

/// Why a file holds no tile.
#[derive(Clone, Copy, Drop)]
pub enum TileError {
    /// The name tells no corner.
    Name,
    /// The size is that of no tile.
    Size,
    /// Memory ran out.
    NoMemory,
}

impl From<AllocError> for TileError {
    ghost use Rattle.hgt_tiles.specs.declared.tile_file.TileError.TheVariants.{NoMemory};

    ghost from_gives = { λ _ e. e ≡ NoMemory };

    fn from(_error: AllocError) -> TileError {
        TileError::NoMemory
    }
}

impl Tile {
    /// The tile in a file of this name and these bytes. The name counts from its last slash on.
    pub fn read(alloc: Global, name: &[u8], bytes: &[u8]) -> Result<Tile, TileError>
        ensures found { IfOk result (λ tile. relief_of_file name.now bytes.now ≡ Ok tile) }

        // The name is looked at first.
        ensures name { (result ≡ Err TileError.Name) ↔ IsNone (corner_of_name name.now) }
        ensures size { (result ≡ Err TileError.Size) ↔
            (IsSome (corner_of_name name.now) × IsNone (steps_of (length bytes.now))) }
    {
        let Some(corner) = corner_of(name) else {
            return Err(TileError::Name);
        };
        let Some(steps) = steps_in(bytes.len()) else {
            return Err(TileError::Size);
        };
        let samples = samples_in(alloc, bytes)?;
        Ok(Tile {
            samples,
            steps,
            corner,
        })
    }

    /// The south-west corner.
    pub(crate) fn corner(&self) -> Corner
        ensures value { result ≡ self.now.corner }
    {
        self.corner
    }

    /// The height in micrometres at offsets to the east and to the north of the corner in
    /// microdegrees.
    pub(crate) fn height(&self, east: u32, north: u32) -> Option<i64>
        requires east { east < 1000000 }
        requires north { north < 1000000 }
        ensures exact { result ≡ height_on self.now east north }
        ensures within { IfSome result (λ height. unsigned_abs height ≤ 32768000000) }
    {
        let steps = self.steps as usize;
        let x = east as usize * steps;
        let y = north as usize * steps;
        let south = (steps - y / 1_000_000) * (steps + 1) + x / 1_000_000;
        let north = south - (steps + 1);
        height_between(Cell {
            south_west: self.samples[south],
            south_east: self.samples[south + 1],
            north_west: self.samples[north],
            north_east: self.samples[north + 1],
            east: (x % 1_000_000) as u32,
            north: (y % 1_000_000) as u32,
        })
    }
}

/// How many steps a degree has in a file of so many bytes.
fn steps_in(bytes: usize) -> Option<u32>
    ensures exact { result ≡ steps_of bytes }
    ensures some { IfSome result (λ steps. 0 < steps) }
    ensures few { IfSome result (λ steps. steps ≤ 3600) }
    ensures whole { IfSome result (λ steps. bytes / 2 ≡ (steps + 1) * (steps + 1)) }
{
    if bytes == 2_884_802 {
        Some(1200)
    } else if bytes == 25_934_402 {
        Some(3600)
    } else {
        None
    }
}

/// The samples of a file, two bytes each.
fn samples_in(alloc: Global, bytes: &[u8]) -> Result<Vec<i16>, AllocError>
    ensures exact { IfOk result (λ samples. samples.items ≡ samples_of bytes.now) }
{
    let count = bytes.len() / 2;
    let mut samples = Vec::with_capacity(alloc, count)?;
    for i in 0..count {
        samples.push(BigEndian::read_i16(&bytes[2 * i..]))?;
    }
    Ok(samples)
}
