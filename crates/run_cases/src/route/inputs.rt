//! The words of a case by what they name, and the limits of its request.

ghost use Rattle.std.specs.Prelude.{IsTrue};
ghost use Rattle.route_engine.specs.Jobs.{IsWithin};
ghost use Rattle.route_http.specs.Seen.{asked};

use crate::route::call_of;
use case_inputs::Case;
use route_http::Request;

/// The word at a place, counted without the quota of a case that has one.
pub(crate) fn word(case: &Case, place: usize) -> &[u8] {
    match call_of(case) {
        2..=4 | 6 => case.word(place.saturating_add(1)),
        _ => case.word(place),
    }
}

/// How many labels a turn settles at most; 0 where the word is no such number.
pub(crate) fn quota(case: &Case) -> u32 {
    case.text(1).parse::<u32>().unwrap_or(0)
}

/// Whether a request for a track is within its limits: it names no sources and no destinations.
pub(crate) fn is_within(request: &Request) -> bool
    ensures found { IsTrue result → IsWithin (asked request.now) }
{
    if request.waypoints.len() < 2 || request.waypoints.len() > 100 {
        return false;
    }
    if request.sources.len() > 0 || request.destinations.len() > 0 {
        return false;
    }
    request.alternative <= 3 && request.labels < 1 << 32
}
