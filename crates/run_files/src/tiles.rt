//! The stages of tiles.

ghost use Rattle.hgt_tiles.specs.Relief.{Relief};
ghost use Rattle.item_list.specs.Answer.{Answers};
ghost use Rattle.run_files.specs.Notes.{inputs};
ghost use Rattle.run_files.specs.TileSets.{AddsFile};
ghost use Rattle.run_files.specs.Tiles.{TakesTile, TakesTiles, tile_in};

use crate::file::take_file;
use crate::note_lines::note_file;
use crate::notes::Notes;
use crate::status::Status;
use command_words::FileWord;
use edge_io::{Files, Sink};
use hgt_tiles::{Tile, TileError, Tiles};
use std::alloc::Global;

/// The most bytes of a tile's file.
const MOST_TILE: usize = 25_934_402;

/// The tiles of files that words name, of each corner the first, each noted; a refusal names the
/// word.
pub fn take_tiles<F: Files, N: Sink>(
    alloc: Global,
    tiles: &[FileWord],
    files: &mut F,
    notes: &mut Notes<N>,
) -> Result<Tiles, Status>
    ensures taken { TakesTiles tiles.now (inputs (F.seen files.old) notes.old)
        (inputs (F.seen files.new) notes.new) result }
{
    let mut set = Tiles::new(alloc);
    'tiles: for file in tiles {
        match add_tile(alloc, file, files, &mut set) {
            Ok(()) => note_file(alloc, file, b"heights", notes),
            Err(status) => return Err(status),
        }
    }
    Ok(set)
}

/// Adds the tile of a file that a word names, unless there is one of its corner.
fn add_tile<F: Files>(
    alloc: Global,
    file: &FileWord,
    files: &mut F,
    tiles: &mut Tiles,
) -> Result<(), Status>
    ensures taken { AddsFile file.now (F.seen files.old) (F.seen files.new) tiles.old tiles.new
        result }
{
    let tile = take_tile(alloc, file, files)?;
    match tiles.add(tile) {
        Ok(()) => Ok(()),
        Err(_) => Err(Status::NoMemory),
    }
}

/// The tile of a file that a word names; a refusal names the word.
fn take_tile<F: Files>(alloc: Global, file: &FileWord, files: &mut F) -> Result<Tile, Status>
    ensures taken { TakesTile file.now (F.seen files.old) (F.seen files.new) result }
{
    let bytes = take_file(alloc, files, file, MOST_TILE)?;
    tile_in(alloc, file, bytes.as_slice())
}

/// The tile of the bytes of a file that a word names; a refusal names the word.
fn tile_in(alloc: Global, file: &FileWord, bytes: &[u8]) -> Result<Tile, Status>
    ensures exact { Answers (λ (r : Relief). r) (tile_in file.now.word file.now.name bytes.now)
        Status.NoMemory result }
{
    let word = file.word();
    match Tile::read(alloc, file.name().as_bytes(), bytes) {
        Ok(tile) => Ok(tile),
        Err(TileError::Name) => Err(Status::Tile {
            word,
            error: TileError::Name,
        }),
        Err(TileError::Size) => Err(Status::Tile {
            word,
            error: TileError::Size,
        }),
        Err(TileError::NoMemory) => Err(Status::NoMemory),
    }
}
