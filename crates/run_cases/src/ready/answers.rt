//! The answers to cases.

ghost use Rattle.route_ready.specs.Fits.{FitsMap};
ghost use Rattle.std.specs.Prelude.{◌≡◌, length};
ghost use Rattle.route_ready.specs.World.{world_of};

use crate::ready::call_of;
use crate::ready::inputs::overrides_from;
use crate::ready::points::{nearest_told, nodes_told};
use crate::told::outside;
use crate::worlds::world_of;
use case_inputs::{Case, profile_of};
use context_check::Overrides;
use cost_model::{FactsOf, Rates};
use item_list::{append_bytes, append_signed};
use profile_text::Profile;
use route_ready::{Ready, World, line, prepare};
use session_answers::KeptProfiles;
use std::alloc::{AllocError, Global};
use way_class::Bound;

/// The answer to a case: its words are the call, a tag table, a profile, a map, waypoints where the
/// call takes some, and overrides.
pub(crate) fn answer(alloc: Global, case: &Case) -> Result<Vec<u8>, AllocError> {
    match world_of(alloc, case.word(1), case.word(3), b"none") {
        Some(world) => in_world(alloc, case, &world),
        None => outside(alloc),
    }
}

/// The answer in a world.
fn in_world(alloc: Global, case: &Case, world: &World) -> Result<Vec<u8>, AllocError> {
    match profile_of(alloc, case.word(2)) {
        Some(profile) => by_profile(alloc, case, world, &profile),
        None => outside(alloc),
    }
}

/// Where the overrides of a case begin.
fn first_override(case: &Case) -> usize {
    match call_of(case) {
        0 | 1 => 4,
        _ => 5,
    }
}

/// The answer by a profile.
fn by_profile(
    alloc: Global,
    case: &Case,
    world: &World,
    profile: &Profile,
) -> Result<Vec<u8>, AllocError> {
    let overrides = overrides_from(alloc, case, first_override(case))?;
    match call_of(case) {
        1 => kept_told(alloc, world, profile, &overrides),
        _ => under(alloc, case, world, profile, &overrides),
    }
}

/// The terms of a profile that is made ready without overrides, then under these, and then under
/// these once more, by way of what is kept; or the line of its refusal.
fn kept_told(
    alloc: Global,
    world: &World,
    profile: &Profile,
    overrides: &Overrides,
) -> Result<Vec<u8>, AllocError> {
    let mut kept = KeptProfiles::new(alloc, 0)?;
    let _ = kept.ready(alloc, world, profile, 0, &Overrides::new(alloc));
    let _ = kept.ready(alloc, world, profile, 0, overrides);
    match kept.ready(alloc, world, profile, 0, overrides) {
        Ok(ready) => terms_told(alloc, &ready),
        Err(error) => line(alloc, &error, Some(profile)),
    }
}

/// The answer by a profile under overrides, or the line of its refusal.
fn under(
    alloc: Global,
    case: &Case,
    world: &World,
    profile: &Profile,
    overrides: &Overrides,
) -> Result<Vec<u8>, AllocError> {
    match prepare(alloc, world, profile, overrides) {
        Ok(ready) => told(alloc, case, world, &ready),
        Err(error) => line(alloc, &error, Some(profile)),
    }
}

/// What a case asks of a profile that is ready.
fn told(alloc: Global, case: &Case, world: &World, ready: &Ready) -> Result<Vec<u8>, AllocError>
    requires fits { FitsMap (world_of world.now).map ready.now }
{
    match call_of(case) {
        0 => terms_told(alloc, ready),
        2 => nodes_told(alloc, case, world, &ready.bound),
        _ => nearest_told(alloc, case, world, &ready.bound),
    }
}

/// Whether turn restrictions count, the rates, and the costfactor of each link.
fn terms_told(alloc: Global, ready: &Ready) -> Result<Vec<u8>, AllocError> {
    let mut text = Vec::new(alloc);
    append_bytes(&mut text, if ready.turns { b"turns" } else { b"no turns" })?;
    append_rates(&mut text, &ready.rates)?;
    append_factors(&mut text, &ready.bound)?;
    Ok(text)
}

/// Appends the prices of a micrometre of descent and of climb, and the most that a buffer keeps.
fn append_rates(text: &mut Vec<u8>, rates: &Rates) -> Result<(), AllocError> {
    append_bytes(text, b", down ")?;
    append_signed(text, rates.down_rate())?;
    append_bytes(text, b", up ")?;
    append_signed(text, rates.up_rate())?;
    append_bytes(text, b", most ")?;
    append_signed(text, rates.most())
}

/// Appends the costfactor of each link.
fn append_factors(text: &mut Vec<u8>, bound: &Bound) -> Result<(), AllocError> {
    for link in 0..bound.count() {
        append_bytes(text, b", ")?;
        append_signed(text, bound.facts(link).costfactor)?;
    }
    Ok(())
}
