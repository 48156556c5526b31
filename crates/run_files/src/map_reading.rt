//! The map of the open file.

ghost use Rattle.std.specs.Prelude.{◌≡◌, ◌<◌, ◌+◌, ◌++◌, ◌^◌, ℕ, true, List, length, take, OnOk};
ghost use Rattle.run_files.specs.MapReading.{CountsMapFault, IsReadFrom, IsTextOf, IsTold, OnFault, ReadsMap};
ghost use Rattle.run_files.specs.Notes.{inputs};
ghost use Rattle.overpass_graph.specs.Builder.{IsFaultOfBeginning, MayBecomeMap, StandsForText, fed};

use crate::map_error::MapFileError;
use crate::note_lines::note_part;
use crate::notes::Notes;
use command_words::FileWord;
use edge_io::{Files, Sink};
use overpass_graph::{Map, MapBuilder, MapError};
use std::alloc::Global;

/// The map of what is left of the open file, of which at most `limit` bytes are taken. Each piece
/// is fed as soon as it is read, so the first fault of the text ends the reading. It takes at most
/// one read more than the limit has bytes. Each part that was read of the file, which this word
/// names, is noted.
pub fn read_map<F: Files, N: Sink>(
    alloc: Global,
    file: &FileWord,
    files: &mut F,
    limit: u64,
    notes: &mut Notes<N>,
) -> Result<Map, MapFileError>
    requires ready { (F.seen files.old).is_open ≡ true }
    requires few { limit < 2 ^ 63 }
    ensures exact { IsReadFrom limit (F.seen files.old).left result }
    ensures kept { ReadsMap file.now limit (inputs (F.seen files.old) notes.old)
        (inputs (F.seen files.new) notes.new) result }
    ensures cause { CountsMapFault (F.seen files.old).faults (F.seen files.new).faults result }
{
    let mut builder = MapBuilder::new(alloc);
    let mut piece = [0u8; 65_536];
    let mut room = limit;
    'reading: loop {
        let given = files.read(&mut piece)?;
        if given == 0 {
            return finish(builder);
        }
        note_part(alloc, file, limit - room, given as u64, notes);
        match feed(&mut builder, within(&piece[..given], room)) {
            Ok(()) => {}
            Err(error) => return Err(error),
        }
        if given as u64 > room {
            return Err(MapFileError::TooLong);
        }
        room -= given as u64;
    }
}

/// As much of a piece as there is room for.
fn within(piece: &[u8], room: u64) -> &[u8]
    ensures exact { result.now ≡ take room piece.now }
{
    if piece.len() as u64 > room {
        &piece[..room as usize]
    } else {
        piece
    }
}

/// Feeds a piece.
fn feed(builder: &mut MapBuilder, piece: &[u8]) -> Result<(), MapFileError>
    requires few { fed builder.old + length piece.now < 2 ^ 63 }
    ensures value { (bytes : List ℕ) → StandsForText builder.old bytes →
        OnOk result (StandsForText builder.new (bytes ++ piece.now)) }
    ensures found { (bytes : List ℕ) → StandsForText builder.old bytes →
        OnOk result (MayBecomeMap (bytes ++ piece.now)) }
    ensures exact { (bytes : List ℕ) → StandsForText builder.old bytes →
        OnFault result (IsFaultOfBeginning (bytes ++ piece.now)) }
    ensures fed { OnOk result (fed builder.new ≡ fed builder.old + length piece.now) }
{
    match builder.feed(piece) {
        Ok(()) => Ok(()),
        Err(error) => Err(told(error)),
    }
}

/// The map of the text that was fed.
fn finish(builder: MapBuilder) -> Result<Map, MapFileError>
    ensures exact { (bytes : List ℕ) → StandsForText builder bytes → IsTextOf bytes result }
{
    match builder.finish() {
        Ok(map) => Ok(map),
        Err(error) => Err(told(error)),
    }
}

/// What a fault of a map's builder is told as.
fn told(error: MapError) -> MapFileError
    ensures exact { IsTold error result }
{
    match error {
        MapError::NoMemory => MapFileError::NoMemory,
        other => MapFileError::Map(other),
    }
}
