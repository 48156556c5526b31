//! The answers to cases.

use crate::map::circles::cut_links;
use crate::map::drafts::limited;
use crate::map::pieces::{by_sizes, cuts, fronts, told_by_piece};
use crate::map::shown::counts_of;
use crate::near::nearest;
use crate::sums::{all_sums, near_sums};
use crate::{bounds, certificates, class, orders, reaches, space, track};
use case_inputs::{Case, map_of, place_of};
use overpass_graph::Map;
use std::alloc::{AllocError, Global};

/// What is answered where the words aren't such as the call takes.
pub(crate) const OUTSIDE: &str = "(outside)";

/// The calls that take texts.
const ON_TEXTS: [&str; 7] = [
    "map",
    "map_pieces",
    "map_fronts",
    "map_cuts",
    "map_limited",
    "facts",
    "globals",
];

/// The calls on a map, whose text is the first word behind them.
const ON_MAPS: [&str; 22] = [
    "map_cut",
    "map_counts",
    "near",
    "sums",
    "sums_near",
    "recheck",
    "rows",
    "cost",
    "walk",
    "runs",
    "woken",
    "ring",
    "certify",
    "check",
    "certify_bound",
    "check_bound",
    "costs",
    "within",
    "costs_counted",
    "within_counted",
    "bounds",
    "order",
];

/// The answer to a case.
pub(crate) fn answer(alloc: Global, case: &Case) -> Result<String, AllocError> {
    match place_of(&ON_TEXTS, case.word(0)) {
        0 => by_sizes(alloc, case.word(1)),
        1 => told_by_piece(alloc, case),
        2 => fronts(alloc, case.word(1)),
        3 => cuts(alloc, case.word(1)),
        4 => limited(alloc, case),
        5 | 6 => class::answer(alloc, case),
        _ => on_map(alloc, case),
    }
}

/// The answer to a case on a map, where its text is one.
fn on_map(alloc: Global, case: &Case) -> Result<String, AllocError> {
    let call = place_of(&ON_MAPS, case.word(0));
    if call >= ON_MAPS.len() {
        return String::from_str(alloc, "no such call");
    }
    match map_of(alloc, case.word(1)) {
        Ok(map) => by_call(alloc, case, &map, call),
        Err(_) => String::from_str(alloc, "no map"),
    }
}

/// The answer to a case on a map by the place of its call.
fn by_call(alloc: Global, case: &Case, map: &Map, call: usize) -> Result<String, AllocError> {
    match call {
        0 => cut_links(alloc, case, map),
        1 => counts_of(alloc, map),
        2 => nearest(alloc, case, map),
        3 => all_sums(alloc, case, map),
        4 => near_sums(alloc, case, map),
        5..=7 => track::answer(alloc, case, map),
        8..=11 => space::answer(alloc, case, map),
        16..=19 => reaches::answer(alloc, case, map),
        20 => bounds::answer(alloc, case, map),
        21 => orders::answer(alloc, case, map),
        _ => certificates::answer(alloc, case, map),
    }
}
