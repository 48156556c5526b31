//! Requests answered in turns.

ghost use Rattle.std.specs.Prelude.{◌≡◌, ◌≤◌, length};
ghost use Rattle.route_engine.specs.Jobs.{IsJobOn, IsWithin};
ghost use Rattle.route_http.specs.Seen.{asked};
ghost use Rattle.route_ready.specs.Fits.{FitsMap};
ghost use Rattle.route_ready.specs.World.{world_of};

use crate::route::call_of;
use crate::route::inputs::quota;
use crate::route::replies::in_replies;
use crate::route::steps::{Ended, append_counts, stepped};
use crate::route::tables::in_table;
use crate::route::tracks::append_track;
use crate::told::outside;
use case_inputs::Case;
use item_list::append_bytes;
use overpass_graph::Map;
use profile_text::Profile;
use route_engine::Job;
use route_http::Request;
use route_ready::{Ready, RouteError, World, line, prepare};
use std::alloc::{AllocError, Global};
use std::rc::Rc;
use track_legs::Track;

/// The answer to a request in turns, or the line of the profile's refusal.
pub(crate) fn in_turns(
    alloc: Global,
    case: &Case,
    world: &World,
    profile: &Profile,
    request: Request,
) -> Result<Vec<u8>, AllocError>
    requires within { IsWithin (asked request) }
{
    match prepare(alloc, world, profile, &request.overrides) {
        Ok(ready) => by_ready(alloc, case, world, ready, request),
        Err(error) => line(alloc, &error, Some(profile)),
    }
}

/// The answer by a profile that is ready.
fn by_ready(
    alloc: Global,
    case: &Case,
    world: &World,
    ready: Ready,
    request: Request,
) -> Result<Vec<u8>, AllocError>
    requires fits { FitsMap (world_of world.now).map ready }
    requires within { IsWithin (asked request) }
{
    let ready = Rc::new(alloc, ready)?;
    match call_of(case) {
        2 => in_job(alloc, case, world, ready, request),
        4 => in_table(alloc, case, world, ready, request),
        _ => in_replies(alloc, case, world, ready, request),
    }
}

/// The answer of a job, or the line of a waypoint without a node.
fn in_job(
    alloc: Global,
    case: &Case,
    world: &World,
    ready: Rc<Ready>,
    request: Request,
) -> Result<Vec<u8>, AllocError>
    requires fits { FitsMap (world_of world.now).map ready.value }
    requires within { IsWithin (asked request) }
{
    match Job::new(alloc, world, ready, request) {
        Ok(job) => by_quota(alloc, case, world, job),
        Err(error) => line(alloc, &error, None),
    }
}
/// The answer of a job, with the quota of a case.
fn by_quota(alloc: Global, case: &Case, world: &World, job: Job) -> Result<Vec<u8>, AllocError>
    requires on { IsJobOn (world_of world.now) job }
{
    let quota = quota(case);
    if quota > 0 {
        return turned(alloc, world, job, quota);
    }
    outside(alloc)
}

/// The answer of a job in turns of a quota, behind its counts.
fn turned(alloc: Global, world: &World, job: Job, quota: u32) -> Result<Vec<u8>, AllocError>
    requires on { IsJobOn (world_of world.now) job }
    requires some { 1 ≤ quota }
{
    match stepped(alloc, world, job, quota) {
        Some(ended) => told(alloc, world.map(), &ended),
        None => Vec::from_slice(alloc, b"not at its end"),
    }
}

/// The track of a job, or the line of its refusal, behind its counts.
fn told(alloc: Global, map: &Map, ended: &Ended<Track>) -> Result<Vec<u8>, AllocError> {
    let mut text = Vec::new(alloc);
    append_counts(&mut text, ended.turns, ended.spent)?;
    append_bytes(&mut text, b" ")?;
    match &ended.end {
        Ok(track) => append_track(&mut text, map, track)?,
        Err(error) => append_line(alloc, &mut text, error)?,
    }
    Ok(text)
}

/// Appends the line of a refusal.
pub(crate) fn append_line(
    alloc: Global,
    text: &mut Vec<u8>,
    error: &RouteError,
) -> Result<(), AllocError> {
    let told = line(alloc, error, None)?;
    append_bytes(text, told.as_slice())
}
