//! Cases on sinks and files in memory, sending, and files that are read whole.

ghost use Rattle.std.specs.Prelude.{◌≡◌, ◌≤◌, is_some, true};

use crate::texts::{NO_CALL, OUTSIDE, shown};
use case_inputs::{Case, place_of};
use edge_io::{Failed, Files, WholeError, read_whole, send_all};
use edge_memory::{MemFiles, MemSink};
use item_list::{Items, Name, bytes_of};
use std::alloc::{AllocError, Global};

/// The calls on the outside.
pub(crate) const CALLS: [&str; 3] = ["send", "read_file", "failed_open"];

/// The answer to a case on the outside.
pub(crate) fn answer(alloc: Global, case: &Case) -> Result<String, AllocError> {
    match place_of(&CALLS, case.word(0)) {
        0 => sent(alloc, case),
        1 => read(alloc, case),
        2 => opened_again(alloc),
        _ => String::from_str(alloc, NO_CALL),
    }
}

/// What comes of sending a text to a sink: its room, the most of one call, the failing call, the
/// text.
fn sent(alloc: Global, case: &Case) -> Result<String, AllocError> {
    let room = case.count(1).min(1000) as usize;
    let piece = case.count(2).min(1000) as usize;
    if piece == 0 {
        return String::from_str(alloc, OUTSIDE);
    }
    let mut sink = MemSink::new(alloc, room, piece, vec![in alloc; case.count(3)]?)?;
    let told = match send_all(&mut sink, case.word(4)) {
        Ok(()) => "whole",
        Err(Failed) => "fault",
    };
    format!(in alloc; "{told} {}", shown(sink.bytes()))
}

/// A file with its name.
fn file(alloc: Global, name: &str, text: &str) -> Result<(Name, Vec<u8>), AllocError> {
    let name = Items::from_vec(bytes_of(alloc, name.as_bytes())?);
    Ok((name, bytes_of(alloc, text.as_bytes())?))
}

/// Files by name and text: two of one name, and one that is empty.
const FILES: [(&str, &str); 4] = [
    ("towns", "a lake and a hill"),
    ("empty", ""),
    ("towns", "another"),
    ("roads", "one road"),
];

/// These files.
fn some_files(alloc: Global) -> Result<Vec<(Name, Vec<u8>)>, AllocError> {
    let mut files = Vec::new(alloc);
    for (name, text) in FILES {
        files.push(file(alloc, name, text)?)?;
    }
    Ok(files)
}

/// These files, by reads of at most so many bytes, where the call of this number fails.
fn files_by(alloc: Global, piece: usize, failing: u64) -> Result<MemFiles, AllocError>
    requires some { 1 ≤ piece }
{
    let files = some_files(alloc)?;
    let failing = vec![in alloc; failing]?;
    Ok(MemFiles::new(alloc, files, piece, failing))
}

/// What comes of reading a file whole: the most bytes of a read, the failing call, the name, the
/// limit.
fn read(alloc: Global, case: &Case) -> Result<String, AllocError> {
    let piece = case.count(1).min(1000) as usize;
    if piece == 0 {
        return String::from_str(alloc, OUTSIDE);
    }
    let mut files = files_by(alloc, piece, case.count(2))?;
    read_from(alloc, case, &mut files)
}

/// The same of these files.
fn read_from(alloc: Global, case: &Case, files: &mut MemFiles) -> Result<String, AllocError> {
    let limit = case.count(4).min(1000) as usize;
    match files.open(case.text(3)) {
        Ok(true) => whole(alloc, &read_whole(alloc, files, limit)),
        Ok(false) => String::from_str(alloc, "missing"),
        Err(Failed) => String::from_str(alloc, "fault"),
    }
}

/// What is said of a file that was read whole.
fn whole(alloc: Global, outcome: &Result<Vec<u8>, WholeError>) -> Result<String, AllocError> {
    match outcome {
        Ok(bytes) => format!(in alloc; "read {}", shown(bytes.as_slice())),
        Err(WholeError::Fault) => String::from_str(alloc, "fault"),
        Err(WholeError::TooLong) => String::from_str(alloc, "too long"),
        Err(WholeError::NoMemory) => Err(AllocError),
    }
}

/// A file is opened, the next opening fails, and what is left of the file is read: how often was
/// opened, and the text.
fn opened_again(alloc: Global) -> Result<String, AllocError> {
    let mut files = files_by(alloc, 9, 1)?;
    match (files.open("roads"), files.open("towns")) {
        (Ok(true), Err(Failed)) => rest_told(alloc, &mut files),
        _ => String::from_str(alloc, "otherwise"),
    }
}

/// How often was opened, and what is left of the open file.
fn rest_told(alloc: Global, files: &mut MemFiles) -> Result<String, AllocError>
    requires ready { is_some files.old.left ≡ true }
{
    let text = whole(alloc, &read_whole(alloc, files, 8))?;
    format!(in alloc; "{} {text}", files.opens())
}
