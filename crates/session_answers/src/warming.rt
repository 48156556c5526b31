//! Profiles that are made ready before a request names them.

ghost use Rattle.std.specs.Prelude.{◌<◌, length};
ghost use Rattle.route_ready.specs.World.{world_of};
ghost use Rattle.session_answers.specs.Jobs.{AreKept};
ghost use Rattle.session_answers.specs.Profiles.{stored_of};
ghost use Rattle.session_answers.specs.Warming.{MakesReady};

use crate::kept::KeptProfiles;
use crate::profiles::Profiles;
use context_check::Overrides;
use route_ready::{RouteError, World};
use std::alloc::Global;

/// Makes the stored profile at a place ready, without overrides, so that no first request pays for
/// it. Of one that is refused nothing is kept; each request that names it is told.
pub fn make_ready(
    alloc: Global,
    world: &World,
    profiles: &Profiles,
    place: u32,
    kept: &mut KeptProfiles,
) -> Result<(), RouteError>
    requires fits { place < length (stored_of profiles.now) }
    requires kept { AreKept (world_of world.now) (stored_of profiles.now) kept.old }
    ensures exact { MakesReady (world_of world.now) (stored_of profiles.now) place result }
    ensures kept { AreKept (world_of world.now) (stored_of profiles.now) kept.new }
{
    let none = Overrides::new(alloc);
    match kept.ready(alloc, world, profiles.profile(place), place, &none) {
        Ok(_) => Ok(()),
        Err(error) => Err(error),
    }
}
