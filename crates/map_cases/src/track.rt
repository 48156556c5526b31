//! Cases on tracks.

pub(crate) mod facts;
pub(crate) mod legs;

ghost use Rattle.std.specs.Prelude.{◌≡◌, ◌<◌, IsTrue, length};
ghost use Rattle.track_legs.specs.Rows.{AreBelow, HasLinksBelow};

use crate::answers::OUTSIDE;
use crate::given::{Given, rates_of};
use crate::track::facts::{given_by_words, number};
use crate::track::legs::{numbers, track};
use case_inputs::{Case, place_of};
use cost_model::{FactsOf, PricedMap, Rates, modes};
use item_list::Items;
use overpass_graph::Map;
use std::alloc::{AllocError, Global};
use track_legs::{Row, Track, cost_along, recheck, rows};

/// The calls on tracks.
const CALLS: [&str; 3] = ["recheck", "rows", "cost"];

/// The answer to a case: its words are the call, the text of a map, the facts of the map's links,
/// and the rates.
pub(crate) fn answer(alloc: Global, case: &Case, map: &Map) -> Result<String, AllocError> {
    let Some(rates) = rates_of_word(case.text(3)) else {
        return String::from_str(alloc, OUTSIDE);
    };
    let given = given_by_words(alloc, map, case.text(2))?;
    if given.count() == map.links() {
        by_call(alloc, case, map, &given, &rates)
    } else {
        String::from_str(alloc, OUTSIDE)
    }
}

/// The rates of the seven global values of a word; 0 stands for a missing one.
fn rates_of_word(word: &str) -> Option<Rates> {
    rates_of(&[
        number(word, 0, 0),
        number(word, 1, 0),
        number(word, 2, 0),
        number(word, 3, 0),
        number(word, 4, 0),
        number(word, 5, 0),
        number(word, 6, 0),
    ])
}

/// The answer to a case on a map with the facts of its links.
fn by_call(
    alloc: Global,
    case: &Case,
    map: &Map,
    given: &Given,
    rates: &Rates,
) -> Result<String, AllocError>
    requires counted { length given.now.facts.items ≡ length map.now.links }
{
    match place_of(&CALLS, case.word(0)) {
        0 => rechecked(alloc, case, map, given, rates),
        1 => rows_told(alloc, case, map, given, rates),
        _ => cost_told(alloc, case, map, given, rates),
    }
}

/// One truth value a sign: whether it is `x`.
fn cut_of(alloc: Global, signs: &[u8]) -> Result<Vec<bool>, AllocError> {
    let mut cut = Vec::new(alloc);
    'signs: for place in 0..signs.len() {
        cut.push(signs[place] == b'x')?;
    }
    Ok(cut)
}

/// Whether the track of a case is one.
fn rechecked(
    alloc: Global,
    case: &Case,
    map: &Map,
    given: &Given,
    rates: &Rates,
) -> Result<String, AllocError>
    requires counted { length given.now.facts.items ≡ length map.now.links }
{
    let track = track(alloc, case.text(6), case.text(7))?;
    with_cut(alloc, case, map, given, rates, &track)
}

/// Whether a track is one where the links of a case are cut.
fn with_cut(
    alloc: Global,
    case: &Case,
    map: &Map,
    given: &Given,
    rates: &Rates,
    track: &Track,
) -> Result<String, AllocError>
    requires counted { length given.now.facts.items ≡ length map.now.links }
{
    let cut = cut_of(alloc, case.word(5))?;
    let turns = case.word(4) == b"turns".as_slice();
    let terrain = PricedMap::new(map, given, rates, modes(given));
    let is_track = recheck(track, &terrain, cut.as_slice(), turns);
    String::from_str(alloc, if is_track { "yes" } else { "no" })
}

/// The rows of the track of a case, where it is one with no link cut and no turn restriction
/// counted.
fn rows_told(
    alloc: Global,
    case: &Case,
    map: &Map,
    given: &Given,
    rates: &Rates,
) -> Result<String, AllocError>
    requires counted { length given.now.facts.items ≡ length map.now.links }
{
    let track = track(alloc, case.text(4), case.text(5))?;
    let terrain = PricedMap::new(map, given, rates, modes(given));
    if recheck(&track, &terrain, &[], false) {
        rows_of(alloc, given, rates, &track)
    } else {
        String::from_str(alloc, "no track")
    }
}

/// The rows of a track.
fn rows_of(alloc: Global, given: &Given, rates: &Rates, track: &Track) -> Result<String, AllocError>
    requires in_range { HasLinksBelow (length given.now.facts.items) track.now }
{
    told(alloc, &rows(alloc, track, given, rates)?)
}

/// Rows in a line: of each its link and its five parts.
fn told(alloc: Global, rows: &Items<Row>) -> Result<String, AllocError> {
    let mut line = String::new(alloc);
    for row in rows.as_slice().iter() {
        let parts = row.parts;
        write!(line, "[{} {} {}", row.link, parts.distance, parts.turn)?;
        write!(
            line,
            " {} {} {}]",
            parts.initial, parts.node, parts.elevation
        )?;
    }
    Ok(line)
}

/// What the links of a case cost as a walk.
fn cost_told(
    alloc: Global,
    case: &Case,
    map: &Map,
    given: &Given,
    rates: &Rates,
) -> Result<String, AllocError>
    requires counted { length given.now.facts.items ≡ length map.now.links }
{
    let walk = numbers(alloc, case.text(4))?;
    if are_links(map, walk.as_slice()) {
        cost_of(alloc, given, rates, walk.as_slice())
    } else {
        String::from_str(alloc, OUTSIDE)
    }
}

/// What links cost as a walk.
fn cost_of(alloc: Global, given: &Given, rates: &Rates, walk: &[u32]) -> Result<String, AllocError>
    requires in_range { AreBelow (length given.now.facts.items) walk.now }
{
    match cost_along(given, rates, walk) {
        Some(cost) => format!(in alloc; "{cost}"),
        None => String::from_str(alloc, "too much"),
    }
}

/// Whether all these are links of a map.
fn are_links(map: &Map, walk: &[u32]) -> bool
    ensures found { IsTrue result → AreBelow (length map.now.links) walk.now }
{
    'links: for place in 0..walk.len() {
        if walk[place] >= map.links() {
            return false;
        }
    }
    true
}
