//! The answers to cases of replies.

ghost use Rattle.way_class.specs.Parts.{HasTags};

use crate::reply::CALLS;
use crate::reply::showable::is_showable;
use crate::reply::tracks::{name_of, track};
use crate::told::outside;
use case_inputs::{Case, code_of, map_of, place_of, table_of, tiles_of};
use cost_model::{FactsOf, Rates};
use hgt_tiles::Tiles;
use lookup_table::Table;
use overpass_graph::Map;
use profile_code::Code;
use std::alloc::{AllocError, Global};
use track_legs::Track;
use track_reply::{Shown, csv, geojson};
use way_class::{Bound, bind};

/// The answer to a case: its words are the call, a tag table, a profile, a map, a tile, the
/// profile's name, the number of the alternative, nodes, legs and earlier alternatives.
pub(crate) fn answer(alloc: Global, case: &Case) -> Result<Vec<u8>, AllocError> {
    match table_of(alloc, case.word(1)) {
        Some(table) => by_table(alloc, case, &table),
        None => outside(alloc),
    }
}

/// The answer under a table.
fn by_table(alloc: Global, case: &Case, table: &Table) -> Result<Vec<u8>, AllocError> {
    match code_of(alloc, table, case.word(2)) {
        Some(code) => by_code(alloc, case, table, &code),
        None => outside(alloc),
    }
}

/// The answer by a profile's code.
fn by_code(alloc: Global, case: &Case, table: &Table, code: &Code) -> Result<Vec<u8>, AllocError>
    requires fits { HasTags code.now table.now }
{
    match map_of(alloc, case.word(3)) {
        Ok(map) => on_map(alloc, case, table, code, &map),
        Err(_) => outside(alloc),
    }
}

/// The answer on a map.
fn on_map(
    alloc: Global,
    case: &Case,
    table: &Table,
    code: &Code,
    map: &Map,
) -> Result<Vec<u8>, AllocError>
    requires fits { HasTags code.now table.now }
{
    let tiles = tiles_of(alloc, case.word(4))?;
    match bind(alloc, code, table, map, &tiles) {
        Ok(bound) => by_facts(alloc, case, table, map, &tiles, &bound),
        Err(_) => outside(alloc),
    }
}

/// The answer by the facts of a map's links.
fn by_facts(
    alloc: Global,
    case: &Case,
    table: &Table,
    map: &Map,
    tiles: &Tiles,
    bound: &Bound,
) -> Result<Vec<u8>, AllocError> {
    let Ok(rates) = Rates::new(&bound.globals()) else {
        return outside(alloc);
    };
    let name = name_of(alloc, case.word(5))?;
    let shown = Shown {
        map,
        table,
        tiles,
        facts: bound,
        rates: &rates,
        name: &name,
        alternative: case.count(6).min(255) as u8,
    };
    told(alloc, case, &shown)
}

/// The reply that a case asks for.
fn told<F: FactsOf>(alloc: Global, case: &Case, shown: &Shown<F>) -> Result<Vec<u8>, AllocError> {
    let track = track(alloc, case.text(7), case.text(8), case.text(9))?;
    track_told(alloc, case, shown, &track)
}

/// The reply that tells a track, where it is one.
fn track_told<F: FactsOf>(
    alloc: Global,
    case: &Case,
    shown: &Shown<F>,
    track: &Track,
) -> Result<Vec<u8>, AllocError> {
    if !is_showable(shown, track) {
        return Vec::from_slice(alloc, b"no track");
    }
    match place_of(&CALLS, case.word(0)) {
        0 => geojson(alloc, shown, track),
        _ => csv(alloc, shown, track),
    }
}
