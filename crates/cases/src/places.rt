//! Cases on places, arrows, turns, circles, and the texts of lengths and heights.

ghost use Rattle.std.specs.Prelude.{◌<◌};

use crate::texts::{NO_CALL, OUTSIDE, perhaps, text_of, truth};
use case_inputs::{Case, place_of};
use geo_int::{Spot, arrow, cos_lat, ele, floor_root, mm3, touches, turn_cos};
use std::alloc::{AllocError, Global};

/// The calls on places.
pub(crate) const CALLS: [&str; 8] = [
    "cosine",
    "root",
    "spot",
    "arrow",
    "turn",
    "touches",
    "metres",
    "height_text",
];

/// The answer to a case on places.
pub(crate) fn answer(alloc: Global, case: &Case) -> Result<String, AllocError> {
    match place_of(&CALLS, case.word(0)) {
        0 => cosine(alloc, case.signed(1)),
        1 => root(alloc, case.size(1)),
        2 => spot(alloc, case),
        3 => arrow_between(alloc, case),
        4 => turn(alloc, case),
        5 => circle(alloc, case),
        6 => metres(alloc, case.size(1)),
        7 => height(alloc, case.signed(1)),
        _ => String::from_str(alloc, NO_CALL),
    }
}

/// The whole root of a number.
fn root(alloc: Global, square: u128) -> Result<String, AllocError> {
    format!(in alloc; "{}", floor_root(square))
}

/// The spot of two words; none where they tell none.
fn spot_at(case: &Case, place: usize) -> Option<Spot>
    requires fits { place < 100 }
{
    Spot::new(case.signed(place), case.signed(place + 1))
}

/// The cosine of a latitude.
fn cosine(alloc: Global, lat: i64) -> Result<String, AllocError> {
    if lat < -90_000_000 || lat > 90_000_000 {
        return String::from_str(alloc, OUTSIDE);
    }
    perhaps(alloc, Some(i128::from(cos_lat(lat))))
}

/// The unsigned and the signed microdegrees of a place.
fn spot(alloc: Global, case: &Case) -> Result<String, AllocError> {
    match spot_at(case, 1) {
        Some(spot) => {
            format!(in alloc; "{} {} {} {}", spot.ilon, spot.ilat, spot.lon(), spot.lat())
        }
        None => String::from_str(alloc, "none"),
    }
}

/// The parts and the length of an arrow between two places.
fn arrow_between(alloc: Global, case: &Case) -> Result<String, AllocError> {
    let (Some(from), Some(to)) = (spot_at(case, 1), spot_at(case, 3)) else {
        return String::from_str(alloc, OUTSIDE);
    };
    match arrow(from, to) {
        Some(found) => format!(in alloc; "{} {} {}", found.dx, found.dy, found.len),
        None => String::from_str(alloc, "none"),
    }
}

/// The cosine of the turn at the second of three places.
fn turn(alloc: Global, case: &Case) -> Result<String, AllocError> {
    let (Some(start), Some(middle), Some(end)) = (
        spot_at(case, 1),
        spot_at(case, 3),
        spot_at(case, 5),
    ) else {
        return String::from_str(alloc, OUTSIDE);
    };
    let Some(first) = arrow(start, middle) else {
        return String::from_str(alloc, OUTSIDE);
    };
    let Some(second) = arrow(middle, end) else {
        return String::from_str(alloc, OUTSIDE);
    };
    perhaps(alloc, Some(i128::from(turn_cos(&first, &second))))
}

/// Whether a circle touches the link between two places.
fn circle(alloc: Global, case: &Case) -> Result<String, AllocError> {
    let (Some(a), Some(b), Some(centre)) = (spot_at(case, 1), spot_at(case, 3), spot_at(case, 5))
    else {
        return String::from_str(alloc, OUTSIDE);
    };
    let radius = case.count(7);
    if radius > 100_000_000 {
        return String::from_str(alloc, OUTSIDE);
    }
    truth(alloc, touches(a, b, centre, radius))
}

/// A length as metres.
fn metres(alloc: Global, millimetres: u128) -> Result<String, AllocError> {
    let mut text = Vec::new(alloc);
    mm3(&mut text, millimetres)?;
    text_of(alloc, text.as_slice())
}

/// A height as metres.
fn height(alloc: Global, micrometres: i64) -> Result<String, AllocError> {
    let mut text = Vec::new(alloc);
    ele(&mut text, micrometres)?;
    text_of(alloc, text.as_slice())
}
