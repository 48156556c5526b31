//! The lines that are noted of files.

ghost use Rattle.std.specs.Prelude.{◌≡◌, ◌≤◌, ◌<◌, ◌+◌, ◌++◌, ◌^◌, IfOk, OnOk};
ghost use Rattle.run_files.specs.NoteLines.{digit, grouped, in_thousands, last_group, map_note, note_on, part_note, part_size, read_notes};
ghost use Rattle.run_files.specs.Notes.{IsNoted, NotesSeen};

use crate::notes::Notes;
use command_words::{FileWord, append_shown};
use edge_io::Sink;
use item_list::{append_bytes, append_number};
use overpass_graph::Map;
use std::alloc::{AllocError, Global};

/// So many bytes of a map's file are a part of which a note is written.
const PART_SIZE: u64 = 100_000_000;

/// Notes what a file was taken in as.
pub fn note_file<N: Sink>(alloc: Global, file: &FileWord, what: &[u8], notes: &mut Notes<N>)
    ensures noted { IsNoted (note_on file.now.name what.now) notes.old notes.new }
{
    let name = file.name();
    notes.note(note_on(alloc, name.as_bytes(), what));
}

/// Notes how large a map is that was taken in.
pub fn note_map<N: Sink>(alloc: Global, file: &FileWord, map: &Map, notes: &mut Notes<N>)
    ensures noted { IsNoted (map_note file.now map.now) notes.old notes.new }
{
    notes.note(map_line(alloc, file, map));
}

/// Notes that a part of a map's file was read, where these bytes behind so many are the last of
/// one.
pub fn note_part<N: Sink>(
    alloc: Global,
    file: &FileWord,
    before: u64,
    more: u64,
    notes: &mut Notes<N>,
)
    requires small { more ≤ part_size }
    requires fits { before + more < 2 ^ 64 }
    ensures noted { (first : NotesSeen) → IsNoted (read_notes file.now before) first notes.old →
        IsNoted (read_notes file.now (before + more)) first notes.new }
{
    let parts = (before + more) / PART_SIZE;
    if before / PART_SIZE < parts {
        notes.note(part_line(alloc, file, parts));
    }
}

/// The line of a note on what a word names.
pub fn note_on(alloc: Global, name: &[u8], what: &[u8]) -> Result<Vec<u8>, AllocError>
    ensures exact { IfOk result (λ text. text.items ≡ note_on name.now what.now) }
{
    let mut text = Vec::new(alloc);
    append_shown(&mut text, name)?;
    append_bytes(&mut text, b": ")?;
    append_bytes(&mut text, what)?;
    append_bytes(&mut text, b"\n")?;
    Ok(text)
}

/// The line of a map that was taken in.
fn map_line(alloc: Global, file: &FileWord, map: &Map) -> Result<Vec<u8>, AllocError>
    ensures exact { IfOk result (λ text. text.items ≡ map_note file.now map.now) }
{
    let mut size = Vec::new(alloc);
    append_grouped(&mut size, u64::from(map.nodes()))?;
    append_bytes(&mut size, b" nodes, ")?;
    append_grouped(&mut size, u64::from(map.links()))?;
    append_bytes(&mut size, b" links")?;
    let name = file.name();
    note_on(alloc, name.as_bytes(), size.as_slice())
}

/// The line of so many parts of a map's file that were read.
fn part_line(alloc: Global, file: &FileWord, parts: u64) -> Result<Vec<u8>, AllocError>
    requires fits { parts < 2 ^ 40 }
    ensures exact { IfOk result (λ text. text.items ≡ part_note file.now parts) }
{
    let mut size = Vec::new(alloc);
    append_number(&mut size, 100 * parts)?;
    append_bytes(&mut size, b" MB")?;
    let name = file.name();
    note_on(alloc, name.as_bytes(), size.as_slice())
}

/// Appends a number below 10^9, with a comma before each three digits.
#[tactic(auto, unfolding(crate::specs::NoteLines::grouped))]
fn append_grouped(text: &mut Vec<u8>, number: u64) -> Result<(), AllocError>
    ensures exact { OnOk result (text.new.items ≡ text.old.items ++ grouped number) }
{
    if number < 1000 {
        return append_number(text, number);
    }
    append_thousands(text, number / 1000)?;
    append_last(text, number)
}

/// Appends a number, with a comma before its last three digits where it has more.
#[tactic(auto, unfolding(crate::specs::NoteLines::in_thousands))]
fn append_thousands(text: &mut Vec<u8>, number: u64) -> Result<(), AllocError>
    ensures exact { OnOk result (text.new.items ≡ text.old.items ++ in_thousands number) }
{
    if number < 1000 {
        return append_number(text, number);
    }
    append_number(text, number / 1000)?;
    append_last(text, number)
}

/// Appends the last three digits of a number, behind a comma.
fn append_last(text: &mut Vec<u8>, number: u64) -> Result<(), AllocError>
    ensures exact { OnOk result (text.new.items ≡ text.old.items ++ last_group number) }
{
    append_bytes(
        text,
        &[b',', digit(number / 100), digit(number / 10), digit(number)],
    )
}

/// The last digit of a number.
fn digit(number: u64) -> u8
    ensures exact { result ≡ digit number }
{
    b'0' + (number % 10) as u8
}
