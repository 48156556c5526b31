//! The stage of a map.

ghost use Rattle.run_files.specs.Map.{TakesMap};
ghost use Rattle.run_files.specs.Notes.{inputs};

use crate::map_error::MapFileError;
use crate::map_reading::read_map;
use crate::note_lines::note_map;
use crate::notes::Notes;
use crate::status::Status;
use command_words::FileWord;
use edge_io::{Files, Sink};
use overpass_graph::Map;
use std::alloc::Global;

/// The most bytes of a map's file.
const MOST_MAP: u64 = 8_589_934_592;

/// The map of a file that a word names, which is read piece by piece, and noted; a refusal names
/// the word.
pub fn take_map<F: Files, N: Sink>(
    alloc: Global,
    file: &FileWord,
    files: &mut F,
    notes: &mut Notes<N>,
) -> Result<Map, Status>
    ensures taken { TakesMap file.now (inputs (F.seen files.old) notes.old)
        (inputs (F.seen files.new) notes.new) result }
{
    let word = file.word();
    match files.open(file.name()) {
        Ok(true) => {}
        Ok(false) => return Err(Status::NotFound { word }),
        Err(_) => return Err(Status::ReadFault { word }),
    }
    match read_map(alloc, file, files, MOST_MAP, notes) {
        Ok(map) => {
            note_map(alloc, file, &map, notes);
            Ok(map)
        }
        Err(MapFileError::Fault) => Err(Status::ReadFault { word }),
        Err(MapFileError::TooLong) => Err(Status::TooLong { word }),
        Err(MapFileError::Map(error)) => Err(Status::Map { word, error }),
        Err(MapFileError::NoMemory) => Err(Status::NoMemory),
    }
}
