//! How a command ended.

ghost use Rattle.std.specs.Prelude.{◌≡◌, ◌++◌, IfOk};
ghost use Rattle.run_files.specs.Status.{number_of_route, number_of_status, line_of, word_front};

use crate::lines::{certificate_line, map_line, refuted_line, tile_line};
use certificate_text::CertError;
use context_check::CheckError;
use hgt_tiles::TileError;
use item_list::{Name, append_number, bytes_of};
use lookup_table::LookupError;
use overpass_graph::MapError;
use profile_text::TextError;
use route_certificate::Why;
use route_http::RequestError;
use route_ready::RouteError;
use std::alloc::{AllocError, Global};

/// How a command ended. `word` is the place of a word, from 0; of a refused file that of the word
/// that names it.
#[derive(Drop)]
pub enum Status {
    /// The whole output was written.
    Done,
    /// The word is at fault.
    Usage { word: u64 },
    /// The query is no request.
    Query { error: RequestError },
    /// The file has more bytes than are taken.
    TooLong { word: u64 },
    /// The file is no tag table.
    Lookup { word: u64, error: LookupError },
    /// The file is no profile.
    Text { word: u64, error: TextError },
    /// The file's profile may not be used with the tag table.
    Check { word: u64, error: CheckError },
    /// The file is no map.
    Map { word: u64, error: MapError },
    /// The file is no tile.
    Tile { word: u64, error: TileError },
    /// The file is no certificate of links of the map.
    Certificate { word: u64, error: CertError },
    /// There is no track, with the line that says why.
    Route { error: RouteError, line: Name },
    /// The certificate doesn't show the track least: this condition fails of this leg.
    Refuted { leg: u32, why: Why },
    /// No file has the name.
    NotFound { word: u64 },
    /// The file could not be opened or read.
    ReadFault { word: u64 },
    /// The output met a fault; a front of it was written.
    WriteFault,
    /// A server took all its turns before the last event.
    TurnsSpent,
    /// The hub could not be opened, or failed to give an event.
    HubFault,
    /// Memory ran out; nothing was written.
    NoMemory,
}

impl Status {
    /// The exit status of the program.
    pub fn number(&self) -> u8
        ensures value { result ≡ number_of_status self.now }
    {
        match self {
            Status::Done => 0,
            Status::Usage { .. } | Status::Query { .. } => 1,
            Status::TooLong { .. }
            | Status::Lookup { .. }
            | Status::Text { .. }
            | Status::Check { .. }
            | Status::Map { .. }
            | Status::Tile { .. }
            | Status::Certificate { .. } => 2,
            Status::Route { error, .. } => number_of_route(error),
            Status::NotFound { .. } => 7,
            Status::ReadFault { .. } => 8,
            Status::WriteFault => 9,
            Status::NoMemory => 10,
            Status::TurnsSpent => 11,
            Status::HubFault => 12,
            Status::Refuted { .. } => 13,
        }
    }

    /// The line that names the status, without its end; that of `Done` is empty.
    pub fn line(&self, alloc: Global) -> Result<Vec<u8>, AllocError>
        ensures value { IfOk result (λ text. text.items ≡ line_of self.now) }
    {
        match self {
            Status::Done => bytes_of(alloc, b""),
            Status::Usage { word } => {
                let mut text = bytes_of(alloc, b"usage: word ")?;
                append_number(&mut text, *word)?;
                Ok(text)
            }
            Status::TooLong { word } => file_line(alloc, *word, b"file too long"),
            Status::Lookup { word, error } => {
                let line = error.line(alloc)?;
                file_line(alloc, *word, line.as_bytes())
            }
            Status::Text { word, error } => {
                let line = error.line(alloc)?;
                file_line(alloc, *word, line.as_bytes())
            }
            Status::Check { word, error } => {
                let line = error.line(alloc)?;
                file_line(alloc, *word, line.as_bytes())
            }
            Status::Query { error } => error.line(alloc),
            Status::Map { word, error } => {
                let line = map_line(alloc, error)?;
                file_line(alloc, *word, line.as_bytes())
            }
            Status::Tile { word, error } => file_line(alloc, *word, tile_line(error).as_bytes()),
            Status::Certificate { word, error } => {
                let line = certificate_line(alloc, error)?;
                file_line(alloc, *word, line.as_bytes())
            }
            Status::Route { line, .. } => bytes_of(alloc, line.as_slice()),
            Status::Refuted { leg, why } => {
                let line = refuted_line(alloc, *leg, *why)?;
                bytes_of(alloc, line.as_bytes())
            }
            Status::NotFound { word } => file_line(alloc, *word, b"not found"),
            Status::ReadFault { word } => file_line(alloc, *word, b"read fault"),
            Status::WriteFault => bytes_of(alloc, b"write fault"),
            Status::TurnsSpent => bytes_of(alloc, b"turns spent"),
            Status::HubFault => bytes_of(alloc, b"hub fault"),
            Status::NoMemory => bytes_of(alloc, b"out of memory"),
        }
    }
}

/// The exit status of a request that has no track.
fn number_of_route(error: &RouteError) -> u8
    ensures value { result ≡ number_of_route error.now }
{
    match error {
        RouteError::UnknownProfile | RouteError::Check(_) | RouteError::Rate(_) => 2,
        RouteError::NoTrack { .. } => 3,
        RouteError::NotMapped { .. } => 4,
        RouteError::Budget { .. } => 5,
        RouteError::GlobalFault { .. } | RouteError::Bind(_) => 6,
        RouteError::NoMemory => 10,
    }
}

/// The line of a refused file: the place of its word, and why.
fn file_line(alloc: Global, word: u64, reason: &[u8]) -> Result<Vec<u8>, AllocError>
    ensures value { IfOk result (λ text. text.items ≡ word_front word ++ reason.now) }
{
    let mut text = bytes_of(alloc, b"word ")?;
    append_number(&mut text, word)?;
    text.extend_from_slice(b": ")?;
    text.extend_from_slice(reason)?;
    Ok(text)
}
