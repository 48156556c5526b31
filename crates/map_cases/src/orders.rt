//! Cases on the order in which the links of a map are eliminated.

use case_inputs::Case;
use item_list::Turn;
use link_order::{LinkOrder, Ordering};
use overpass_graph::Map;
use std::alloc::{AllocError, Global};

/// More steps than the maps of cases take.
const STEPS: u64 = 1_000_000;

/// The links of a map from the first one that is eliminated: the words are the text of the map, and
/// whether the order is worked out step by step.
pub(crate) fn answer(alloc: Global, case: &Case, map: &Map) -> Result<String, AllocError> {
    let ordering = Ordering::new(alloc, map)?;
    let order = if case.count(2) == 1 {
        by_step(alloc, map, ordering)?
    } else {
        ordering.finish(alloc, map)?
    };
    line_of(alloc, &order)
}

/// The order, step by step.
fn by_step(alloc: Global, map: &Map, ordering: Ordering) -> Result<LinkOrder, AllocError> {
    let mut ordering = ordering;
    'steps: for _ in 0..STEPS {
        match ordering.step(alloc, map)? {
            Turn::More(next) => ordering = next,
            Turn::Done(order) => return Ok(order),
        }
    }
    ordering.finish(alloc, map)
}

/// The links of an order in a line, `none` where there are none.
fn line_of(alloc: Global, order: &LinkOrder) -> Result<String, AllocError> {
    if order.len() == 0 {
        return String::from_str(alloc, "none");
    }
    let mut line = String::new(alloc);
    'places: for place in 0..order.len() {
        if place > 0 {
            line.push_str(" ")?;
        }
        let link = order.link(place);
        write!(line, "{link}")?;
    }
    Ok(line)
}
