//! The answers to requests.

ghost use Rattle.route_engine.specs.Jobs.{IsWithin};
ghost use Rattle.route_http.specs.Seen.{asked};

use crate::route::call_of;
use crate::route::inputs::{is_within, word};
use crate::route::tracks::{append_costs, append_track};
use crate::route::turns::in_turns;
use crate::told::outside;
use crate::worlds::world_of;
use case_inputs::{Case, profile_of};
use profile_text::Profile;
use route_engine::route;
use route_http::{Request, RequestError, costed_request, request};
use route_ready::{World, line};
use std::alloc::{AllocError, Global};
use track_legs::Track;

/// The answer to a case: its words are the call, the quota where the call has one, a tag table, a
/// profile, a map, a query and a tile.
pub(crate) fn answer(alloc: Global, case: &Case) -> Result<Vec<u8>, AllocError> {
    match world_of(alloc, word(case, 1), word(case, 3), word(case, 5)) {
        Some(world) => in_world(alloc, case, &world),
        None => outside(alloc),
    }
}

/// The answer in a world.
fn in_world(alloc: Global, case: &Case, world: &World) -> Result<Vec<u8>, AllocError> {
    match profile_of(alloc, word(case, 2)) {
        Some(profile) => by_profile(alloc, case, world, &profile),
        None => outside(alloc),
    }
}

/// The answer by a profile, or the line of the query's refusal.
fn by_profile(
    alloc: Global,
    case: &Case,
    world: &World,
    profile: &Profile,
) -> Result<Vec<u8>, AllocError> {
    match request_of(alloc, case) {
        Ok(request) => to_request(alloc, case, world, profile, request),
        Err(error) => error.line(alloc),
    }
}

/// The request of a case, with a cost where what lies within one is asked for.
fn request_of(alloc: Global, case: &Case) -> Result<Request, RequestError> {
    match call_of(case) {
        6 => costed_request(alloc, word(case, 4)),
        _ => request(alloc, word(case, 4)),
    }
}

/// The answer to a request.
fn to_request(
    alloc: Global,
    case: &Case,
    world: &World,
    profile: &Profile,
    request: Request,
) -> Result<Vec<u8>, AllocError> {
    if is_within(&request) {
        return by_call(alloc, case, world, profile, request);
    }
    outside(alloc)
}

/// The answer to a request within its limits.
fn by_call(
    alloc: Global,
    case: &Case,
    world: &World,
    profile: &Profile,
    request: Request,
) -> Result<Vec<u8>, AllocError>
    requires within { IsWithin (asked request) }
{
    match call_of(case) {
        0 | 1 => routed(alloc, case, world, profile, request),
        _ => in_turns(alloc, case, world, profile, request),
    }
}

/// What a case tells of the track that a request asks for, or the line of its refusal.
fn routed(
    alloc: Global,
    case: &Case,
    world: &World,
    profile: &Profile,
    request: Request,
) -> Result<Vec<u8>, AllocError>
    requires within { IsWithin (asked request) }
{
    match route(alloc, world, profile, request) {
        Ok(track) => track_told(alloc, case, world, &track),
        Err(error) => line(alloc, &error, Some(profile)),
    }
}

/// What a case tells of a track.
fn track_told(
    alloc: Global,
    case: &Case,
    world: &World,
    track: &Track,
) -> Result<Vec<u8>, AllocError> {
    let mut text = Vec::new(alloc);
    match call_of(case) {
        0 => append_track(&mut text, world.map(), track),
        _ => append_costs(&mut text, track.legs.as_slice()),
    }?;
    Ok(text)
}
