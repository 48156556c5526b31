//! The world of a command's files, with profiles.

ghost use Rattle.std.specs.Prelude.{[]};
ghost use Rattle.command_words.specs.Fit.{AreOnceAfter};
ghost use Rattle.run_files.specs.Chain.{seen_as};
ghost use Rattle.run_files.specs.Notes.{inputs};
ghost use Rattle.run_files.specs.World.{TakesWorld, WorldFiles, offered_of};

use crate::map::take_map;
use crate::note_lines::note_file;
use crate::notes::Notes;
use crate::profiles::take_profiles;
use crate::status::Status;
use crate::tag_table::take_table;
use crate::tiles::take_tiles;
use command_words::FileWord;
use edge_io::{Files, Sink};
use route_ready::{Shelf, World};
use std::alloc::Global;

/// What is offered to requests: a world, and profiles by the names of their files.
#[derive(Drop)]
pub struct Offered {
    pub world: World,
    pub shelf: Shelf,
}

/// The world of files that words name, with profiles. Each file is opened, read and taken in before
/// the next, and noted: that of the tag table, those of the profiles, that of the map, and those of
/// the tiles.
pub fn take_world<F: Files, N: Sink>(
    alloc: Global,
    lookups: &FileWord,
    profiles: &[FileWord],
    map: &FileWord,
    tiles: &[FileWord],
    files: &mut F,
    notes: &mut Notes<N>,
) -> Result<Offered, Status>
    requires once { AreOnceAfter [] profiles.now }
    ensures taken { let named : WorldFiles =
        record {
          lookups = lookups.now;
          profiles = profiles.now;
          map = map.now;
          tiles =
              tiles.now;
        } in
        TakesWorld named (inputs (F.seen files.old) notes.old) (inputs (F.seen files.new) notes.new)
        (seen_as offered_of result) }
{
    let table = take_table(alloc, lookups, files)?;
    note_file(alloc, lookups, b"tag table", notes);
    let shelf = take_profiles(alloc, profiles, &table, files, notes)?;
    let roads = take_map(alloc, map, files, notes)?;
    let heights = take_tiles(alloc, tiles, files, notes)?;
    match World::new(alloc, table, roads, heights) {
        Ok(world) => Ok(Offered { world, shelf }),
        Err(_) => Err(Status::NoMemory),
    }
}
