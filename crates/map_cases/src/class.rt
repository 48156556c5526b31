//! Cases on profiles bound to maps.

ghost use Rattle.way_class.specs.Parts.{HasTags};

use crate::answers::OUTSIDE;
use case_inputs::{Case, code_of, map_of, place_of, table_of, tiles_of};
use cost_model::{FactsOf, LinkFacts};
use fixed_num::Arith;
use hgt_tiles::Tiles;
use lookup_table::Table;
use overpass_graph::Map;
use profile_code::Code;
use std::alloc::{AllocError, Global};
use way_class::{BindError, Bound, WayName, bind};

/// The calls on bound profiles.
const CALLS: [&str; 2] = ["facts", "globals"];

/// The answer to a case: its words are the call, a tag table, a profile, a map and a tile.
pub(crate) fn answer(alloc: Global, case: &Case) -> Result<String, AllocError> {
    match table_of(alloc, case.word(1)) {
        Some(table) => by_table(alloc, case, &table),
        None => String::from_str(alloc, OUTSIDE),
    }
}

/// The answer under a table.
fn by_table(alloc: Global, case: &Case, table: &Table) -> Result<String, AllocError> {
    match code_of(alloc, table, case.word(2)) {
        Some(code) => by_code(alloc, case, table, &code),
        None => String::from_str(alloc, OUTSIDE),
    }
}

/// The answer by a profile's code.
fn by_code(alloc: Global, case: &Case, table: &Table, code: &Code) -> Result<String, AllocError>
    requires fits { HasTags code.now table.now }
{
    match map_of(alloc, case.word(3)) {
        Ok(map) => on_map(alloc, case, table, code, &map),
        Err(_) => String::from_str(alloc, OUTSIDE),
    }
}

/// The answer on a map.
fn on_map(
    alloc: Global,
    case: &Case,
    table: &Table,
    code: &Code,
    map: &Map,
) -> Result<String, AllocError>
    requires fits { HasTags code.now table.now }
{
    let tiles = tiles_of(alloc, case.word(4))?;
    over_tiles(alloc, case, table, code, map, &tiles)
}

/// The answer on a map over tiles.
fn over_tiles(
    alloc: Global,
    case: &Case,
    table: &Table,
    code: &Code,
    map: &Map,
    tiles: &Tiles,
) -> Result<String, AllocError>
    requires fits { HasTags code.now table.now }
{
    match bind(alloc, code, table, map, tiles) {
        Ok(bound) => told(alloc, case, &bound),
        Err(e) => refused(alloc, e),
    }
}

/// What a bound profile tells: the facts of each link, or the seven global values.
fn told(alloc: Global, case: &Case, bound: &Bound) -> Result<String, AllocError> {
    match place_of(&CALLS, case.word(0)) {
        0 => facts_text(alloc, bound),
        _ => globals_text(alloc, bound),
    }
}

/// The facts of each link.
fn facts_text(alloc: Global, bound: &Bound) -> Result<String, AllocError> {
    let mut text = String::new(alloc);
    'links: for link in 0..bound.count() {
        if link > 0 {
            text.push(' ')?;
        }
        append_facts(&mut text, &bound.facts(link))?;
    }
    Ok(text)
}

/// Appends the facts of a link: length, rise, costfactor, turncost, initialcost, classifier,
/// charge, both factors, and a sign where access is granted.
fn append_facts(text: &mut String, facts: &LinkFacts) -> Result<(), AllocError> {
    write!(text, "{},{}", facts.arrow.len, facts.rise)?;
    write!(text, ",{},{}", facts.costfactor, facts.turncost)?;
    write!(text, ",{},{}", facts.initialcost, facts.classifier)?;
    write!(text, ",{},{}", facts.charge, facts.upfactor)?;
    write!(text, ",{}", facts.downfactor)?;
    if facts.granted {
        text.push_str(",granted")?;
    }
    Ok(())
}

/// The seven global values.
fn globals_text(alloc: Global, bound: &Bound) -> Result<String, AllocError> {
    let mut text = String::new(alloc);
    for number in &bound.globals() {
        write!(text, " {}", number.millionths())?;
    }
    Ok(text)
}

/// A refusal as text.
fn refused(alloc: Global, error: BindError) -> Result<String, AllocError> {
    match error {
        BindError::Global { variable, kind } => {
            format!(in alloc; "global {variable} {}", kind_text(kind))
        }
        BindError::Way {
            id,
            back,
            variable,
            kind,
        } => format!(in alloc;
            "way {id} {} {variable} {}",
            side_text(back),
            kind_text(kind)
        ),
        BindError::NegativeWay { id, back, which } => {
            format!(in alloc;
                "way {id} {} negative {}",
                side_text(back),
                name_text(which)
            )
        }
        BindError::Node {
            id,
            granted,
            variable,
            kind,
        } => format!(in alloc;
            "node {id} {} {variable} {}",
            access_text(granted),
            kind_text(kind)
        ),
        BindError::NegativeNode { id, granted } => {
            format!(in alloc; "node {id} {} negative", access_text(granted))
        }
        BindError::NoMemory => Err(AllocError),
    }
}

/// A kind of fault.
fn kind_text(kind: Arith) -> &'static str {
    match kind {
        Arith::DivZero => "division",
        Arith::TooLarge => "large",
    }
}

/// A direction.
fn side_text(back: bool) -> &'static str {
    if back { "backward" } else { "forward" }
}

/// A way of entering a node.
fn access_text(granted: bool) -> &'static str {
    if granted { "granted" } else { "plain" }
}

/// A name whose value is negative.
fn name_text(which: WayName) -> &'static str {
    match which {
        WayName::Costfactor => "costfactor",
        WayName::Turncost => "turncost",
        WayName::Initialcost => "initialcost",
        WayName::Uphillcostfactor => "uphillcostfactor",
        WayName::Downhillcostfactor => "downhillcostfactor",
    }
}
