//! Texts of maps fed in pieces.

ghost use Rattle.std.specs.Prelude.{◌≡◌, ◌≤◌, OnOk};
ghost use Rattle.overpass_graph.specs.Builder.{fed};

use crate::map::shown::{fault_text, map_text};
use case_inputs::{Case, map_of};
use overpass_graph::{Map, MapBuilder, MapError};
use std::alloc::{AllocError, Global};

/// Feeds a piece to a builder that was fed so many bytes; beyond 2^60 bytes it takes none.
fn feed(builder: &mut MapBuilder, piece: &[u8], total: &mut u64) -> Result<(), MapError>
    requires counted { fed builder.old ≡ total.old }
    ensures counted { OnOk result (fed builder.new ≡ total.new) }
{
    if *total < 1 << 60 && piece.len() < 1 << 60 {
        builder.feed(piece)?;
        *total += piece.len() as u64;
    }
    Ok(())
}

/// The map of a text in pieces of a size, or its first fault.
fn read_by(alloc: Global, text: &[u8], size: usize) -> Result<Map, MapError> {
    let mut builder = MapBuilder::new(alloc);
    let mut total = 0u64;
    'pieces: for piece in text.chunks(size.max(1)) {
        feed(&mut builder, piece, &mut total)?;
    }
    builder.finish()
}

/// The map of a text that is cut in two at a place, or its first fault.
fn read_cut(alloc: Global, text: &[u8], place: usize) -> Result<Map, MapError> {
    let (front, back) = text.split_at(place.min(text.len()));
    let mut builder = MapBuilder::new(alloc);
    let mut total = 0u64;
    feed(&mut builder, front, &mut total)?;
    feed(&mut builder, back, &mut total)?;
    builder.finish()
}

/// What comes of a text.
fn told(alloc: Global, answer: Result<Map, MapError>) -> Result<String, AllocError> {
    match answer {
        Ok(map) => map_text(alloc, &map),
        Err(e) => fault_text(alloc, e),
    }
}

/// What comes of a text, if it is the same in pieces of 1, 2, 3 and 7 bytes.
pub(crate) fn by_sizes(alloc: Global, text: &[u8]) -> Result<String, AllocError> {
    let whole = told(alloc, map_of(alloc, text))?;
    for size in [1, 2, 3, 7] {
        let other = told(alloc, read_by(alloc, text, size))?;
        if other.as_str() != whole.as_str() {
            return format!(in alloc; "{other}, in pieces of {size}");
        }
    }
    Ok(whole)
}

/// Whether a text that is cut in two at a place comes to this.
fn is_told_cut(alloc: Global, text: &[u8], place: usize, whole: &str) -> Result<bool, AllocError> {
    let other = told(alloc, read_cut(alloc, text, place))?;
    Ok(other.as_str() == whole)
}

/// How many cuts of a text in two leave what comes of it.
pub(crate) fn cuts(alloc: Global, text: &[u8]) -> Result<String, AllocError> {
    let whole = told(alloc, map_of(alloc, text))?;
    let mut same = 0u64;
    'places: for place in 0..text.len() {
        if is_told_cut(alloc, text, place, whole.as_str())? {
            same = same.wrapping_add(1);
        }
    }
    format!(in alloc; "{same} of {}", text.len())
}

/// Whether a text is no JSON behind its last byte.
fn is_cut_off(alloc: Global, text: &[u8]) -> bool {
    match read_by(alloc, text, 5) {
        Err(MapError::NotJson { at }) => at == text.len() as u64,
        _ => false,
    }
}

/// How many proper beginnings of a text are no JSON behind their last byte.
pub(crate) fn fronts(alloc: Global, text: &[u8]) -> Result<String, AllocError> {
    let mut such = 0u64;
    'fronts: for size in 0..text.len() {
        if is_cut_off(alloc, &text[..size]) {
            such = such.wrapping_add(1);
        }
    }
    format!(in alloc; "{such} of {}", text.len())
}

/// Appends a fault with `_` for spaces, and a space.
fn tell_fault(line: &mut String, fault: &str) -> Result<(), AllocError> {
    for (at, word) in fault.split(' ').enumerate() {
        if at > 0 {
            line.push_str("_")?;
        }
        line.push_str(word)?;
    }
    line.push_str(" ")
}

/// Tells what is answered to a piece: `+`, or the fault with `_` for spaces.
fn tell_piece(
    alloc: Global,
    answer: Result<(), MapError>,
    line: &mut String,
) -> Result<(), AllocError> {
    match answer {
        Ok(()) => line.push_str("+ "),
        Err(e) => tell_fault(line, fault_text(alloc, e)?.as_str()),
    }
}

/// Feeds a piece to a builder that was fed at most so many bytes, and tells what is answered;
/// beyond 2^60 bytes it takes none.
fn feed_told(
    alloc: Global,
    builder: &mut MapBuilder,
    piece: &[u8],
    most: &mut u64,
    line: &mut String,
) -> Result<(), AllocError>
    requires counted { fed builder.old ≤ most.old }
    ensures counted { fed builder.new ≤ most.new }
{
    if *most < 1 << 60 && piece.len() < 1 << 60 {
        let answer = builder.feed(piece);
        *most += piece.len() as u64;
        tell_piece(alloc, answer, line)?;
    }
    Ok(())
}

/// Tells what is answered to each of the pieces that the words are, and gives what comes of them.
fn fed_told(
    alloc: Global,
    case: &Case,
    line: &mut String,
) -> Result<Result<Map, MapError>, AllocError> {
    let mut builder = MapBuilder::new(alloc);
    let mut most = 0u64;
    'words: for place in 1..case.len() {
        feed_told(alloc, &mut builder, case.word(place), &mut most, line)?;
    }
    Ok(builder.finish())
}

/// What is answered to each of the pieces that the words are, and at the end.
pub(crate) fn told_by_piece(alloc: Global, case: &Case) -> Result<String, AllocError> {
    let mut line = String::new(alloc);
    let last = told(alloc, fed_told(alloc, case, &mut line)?)?;
    line.push_str(last.as_str())?;
    Ok(line)
}
