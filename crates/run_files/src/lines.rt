//! What is printed of refused maps, tiles and certificates.

ghost use Rattle.std.specs.Prelude.{◌≡◌, IfOk};
ghost use Rattle.std.specs.String.{string_bytes};
ghost use Rattle.run_files.specs.Lines.{certificate_line, count_name, kind_name, map_line, refuted_line, tile_line, why_name};

use certificate_text::CertError;
use hgt_tiles::TileError;
use overpass_graph::{ElementKind, MapCount, MapError};
use route_certificate::Why;
use std::alloc::{AllocError, Global};

/// The line that is printed of a text that is no map, without an end of line.
pub fn map_line(alloc: Global, error: &MapError) -> Result<String, AllocError>
    ensures exact { IfOk result (λ s. string_bytes s ≡ map_line error.now) }
{
    match error {
        MapError::NotJson { at } => format!(in alloc; "map: not JSON at byte {at}"),
        MapError::Shape { place } => {
            format!(in alloc; "map: element {place} has the wrong shape")
        }
        MapError::BadCoordinate { id } => format!(in alloc; "map: node {id} has a bad coordinate"),
        MapError::DoubleId { kind, id } => {
            let name = kind_name(*kind);
            format!(in alloc; "map: {name} {id} given twice")
        }
        MapError::TooLarge { what } => {
            let name = count_name(*what);
            format!(in alloc; "map: too many {name}")
        }
        MapError::MissingNode { way, node } => {
            format!(in alloc; "map: way {way} lacks node {node}")
        }
        MapError::NoMemory => String::from_str(alloc, "out of memory"),
    }
}

/// The line that is printed of a file that is no tile, without an end of line.
pub fn tile_line(error: &TileError) -> &'static str
    ensures exact { result.now ≡ tile_line error.now }
{
    match error {
        TileError::Name => "tile name",
        TileError::Size => "tile size",
        TileError::NoMemory => "out of memory",
    }
}

/// The line that is printed of a text that is no certificate, without an end of line.
pub fn certificate_line(alloc: Global, error: &CertError) -> Result<String, AllocError>
    ensures exact { IfOk result (λ s. string_bytes s ≡ certificate_line error.now) }
{
    match error {
        CertError::Line { line } => format!(in alloc; "certificate line {line}"),
        CertError::NoMemory => String::from_str(alloc, "out of memory"),
    }
}

/// The line that is printed of a certificate of which a condition fails of a leg, without an end of
/// line.
pub fn refuted_line(alloc: Global, leg: u32, why: Why) -> Result<String, AllocError>
    ensures exact { IfOk result (λ s. string_bytes s ≡ refuted_line leg why) }
{
    let name = why_name(why);
    format!(in alloc; "certificate refused: leg {leg}, {name}")
}

/// What a condition is called.
fn why_name(why: Why) -> &'static str
    ensures exact { result.now ≡ why_name why }
{
    match why {
        Why::Legs => "legs",
        Why::Walk => "walk",
        Why::Bounds => "bounds",
        Why::Start => "start",
        Why::Step => "step",
        Why::Goal => "goal",
    }
}

/// What an element is called.
fn kind_name(kind: ElementKind) -> &'static str
    ensures exact { result.now ≡ kind_name kind }
{
    match kind {
        ElementKind::Node => "node",
        ElementKind::Way => "way",
        ElementKind::Relation => "relation",
    }
}

/// What there are too many of.
fn count_name(what: MapCount) -> &'static str
    ensures exact { result.now ≡ count_name what }
{
    match what {
        MapCount::Nodes => "nodes",
        MapCount::Ways => "ways",
        MapCount::Segments => "segments",
        MapCount::Members => "members",
    }
}
