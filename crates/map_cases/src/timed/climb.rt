//! Computes so many heights of drawn places on a tile, steps of a buffer and coverings of drawn
//! labels, and prints what came of them.
ghost use Rattle.elev_buffer.specs.Covers.{IsPair};

use crate::timed::words::number_at;
use elev_buffer::{Limits, Mode, Modes, Pair, covers, step};
use geo_int::Spot;
use hgt_tiles::{Tile, TileError, Tiles};
use std::alloc::{AllocError, Global};
use std::io;

/// Samples in a row of the tile, and rows.
const SIDE: u16 = 1201;

/// The number after this one in a sequence that looks drawn.
fn drawn(number: u32) -> u32 {
    number.wrapping_mul(1_664_525).wrapping_add(1_013_904_223)
}

/// The bytes of a tile that rises and falls.
fn tile_bytes(alloc: Global) -> Result<Vec<u8>, AllocError> {
    let mut bytes = Vec::new(alloc);
    for row in 0..SIDE {
        push_row(&mut bytes, row)?;
    }
    Ok(bytes)
}

/// Writes a row of samples, from 0 to 1,399 m.
fn push_row(bytes: &mut Vec<u8>, row: u16) -> Result<(), AllocError> {
    for column in 0..SIDE {
        let sample = row % 700 + column % 701;
        bytes.extend_from_slice(sample.to_be_bytes().as_slice())?;
    }
    Ok(())
}

/// The tile of these bytes.
fn tiles_of(alloc: Global, bytes: &[u8]) -> Result<Tiles, TileError> {
    let mut tiles = Tiles::new(alloc);
    tiles.add(Tile::read(alloc, b"N47E008.hgt".as_slice(), bytes)?)?;
    Ok(tiles)
}

/// The tile that rises and falls.
fn tile(alloc: Global) -> Result<Tiles, TileError> {
    let bytes = tile_bytes(alloc)?;
    tiles_of(alloc, &bytes)
}

/// The tile's heights in micrometres at so many drawn places, summed up.
fn heights(tiles: &Tiles, count: u64) -> u64 {
    let mut number = 1;
    let mut sum = 0u64;
    for _ in 0..count {
        let lon = drawn(number);
        number = drawn(lon);
        let spot = Spot::new(
            8_000_000 + (lon >> 8) as i64 % 1_000_000,
            47_000_000 + (number >> 8) as i64 % 1_000_000,
        );
        if let Some(height) = spot.and_then(|spot| tiles.height(spot)) {
            sum = sum.wrapping_add(height.unsigned_abs());
        }
    }
    sum
}

/// What a buffer pays in so many drawn steps, in micrometres.
fn steps(count: u64) -> u64 {
    let limits = Limits {
        penalty: 5_000_000,
        most: 10_000_000,
    };
    let mut number = 1;
    let mut buffer = 0;
    let mut sum = 0u64;
    'steps: for _ in 0..count {
        number = drawn(number);
        let added = (number >> 8) as i64 % 4_000_001 - 1_500_000;
        let stepped = step(buffer, added, 1_000_000, &limits);
        buffer = stepped.e;
        sum = sum.wrapping_add(stepped.paid.unsigned_abs());
    }
    sum
}

/// Buffers of up to 10 m, as a number draws them.
fn pair_of(number: u32) -> Pair
    ensures sound { IsPair result }
{
    Pair {
        down: (number >> 16) as i64 * 150,
        up: (number >> 8) as i64 % 65_536 * 150,
    }
}

/// How many of so many drawn labels make another needless.
fn coverings(count: u64) -> u64 {
    let modes = Modes {
        down: Mode::Compensated,
        up: Mode::Compensated,
    };
    let mut number = 1;
    let mut covered = 0u64;
    for _ in 0..count {
        let first = drawn(number);
        number = drawn(first);
        let cost = (number >> 4) as u128;
        if covers(
            &pair_of(first),
            100_000_000,
            &pair_of(number),
            cost,
            60,
            80,
            &modes,
        ) {
            covered = covered.wrapping_add(1);
        }
    }
    covered
}

/// Computes as many of each kind as the words say, and prints what came of them.
pub(crate) fn run(rt: &HostRuntime, words: &[String]) -> io::Result<()> {
    let points = number_at(words, 0, 1000);
    let moves = number_at(words, 1, 1000);
    let pairs = number_at(words, 2, 1000);
    let Ok(tiles) = tile(rt.alloc()) else {
        return println!(rt; "no tile");
    };
    let sum = heights(&tiles, points);
    let paid = steps(moves);
    let covered = coverings(pairs);
    println!(rt;
        "{points} heights of {sum}, {moves} steps paid {paid}, {covered} of {pairs} covered"
    )
}
