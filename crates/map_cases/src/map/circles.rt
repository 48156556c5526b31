//! Which links circles cut.

use case_inputs::Case;
use geo_int::Spot;
use nogo_areas::{Circle, cut};
use overpass_graph::Map;
use std::alloc::{AllocError, Global};

/// The circle of the words from a place on: the longitude and the latitude of its centre in
/// microdegrees, and its radius in millimetres. None where they are none.
fn circle(case: &Case, place: usize) -> Option<Circle> {
    let centre = Spot::new(case.signed(place), case.signed(place.checked_add(1)?))?;
    let radius = case.count(place.checked_add(2)?);
    if radius > 100_000_000 {
        return None;
    }
    Some(Circle { centre, radius })
}

/// The circles of a case, three words each.
fn circles(alloc: Global, case: &Case) -> Result<Vec<Circle>, AllocError> {
    let mut list = Vec::new(alloc);
    'places: for place in 2..case.len() {
        if place % 3 == 2 {
            if let Some(one) = circle(case, place) {
                list.push(one)?;
            }
        }
    }
    Ok(list)
}

/// One sign a link: `x` where some circle cuts it, and `.` where none does.
fn signs(alloc: Global, map: &Map, circles: &[Circle]) -> Result<String, AllocError> {
    let mut told = String::new(alloc);
    for is_cut in cut(alloc, map, circles)?.iter() {
        told.push_str(if *is_cut { "x" } else { "." })?;
    }
    Ok(told)
}

/// Which links of a map the circles of a case cut.
pub(crate) fn cut_links(alloc: Global, case: &Case, map: &Map) -> Result<String, AllocError> {
    let circles = circles(alloc, case)?;
    signs(alloc, map, circles.as_slice())
}
