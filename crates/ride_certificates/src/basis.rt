//! A request made ready: its profile, the links that its circles cut, and the nodes of its
//! waypoints.

ghost use Rattle.std.specs.Prelude.{◌≡◌, ◌⊎◌, MatchResult, length};
ghost use Rattle.cost_model.specs.Rides.{Terrain};
ghost use Rattle.nogo_areas.specs.Cuts.{cut_of};
ghost use Rattle.profile_text.specs.Expr.{sections_in};
ghost use Rattle.ride_certificates.specs.Bases.{IsBasisFor, IsBasisOf, IsBasisOn};
ghost use Rattle.route_engine.specs.Jobs.{IsWithin, setting_of, terrain_of};
ghost use Rattle.route_engine.specs.Refusals.{RefusesEarly};
ghost use Rattle.route_engine.specs.Replies.{question_of};
ghost use Rattle.route_engine.specs.Settings.{open_map_of};
ghost use Rattle.route_engine.specs.Waypoints.{RefusesWaypoint};
ghost use Rattle.route_http.specs.Seen.{asked};
ghost use Rattle.route_ready.specs.World.{world_of};
ghost use Rattle.route_ready.specs.declared.error.RouteError.TheVariants.{NoMemory};
ghost use Rattle.way_class.specs.Links.{links_of};

use cost_model::{Passages, PricedMap};
use nogo_areas::cut;
use profile_text::Profile;
use route_engine::waypoint_nodes;
use route_http::Request;
use route_ready::{Ready, RouteError, World, prepare};
use std::alloc::Global;
use way_class::Bound;

/// A request made ready for a world.
pub(crate) struct Basis {
    pub(crate) ready: Ready,
    /// Whether each link is cut by a circle.
    pub(crate) cut: Vec<bool>,
    /// The nodes of the waypoints.
    pub(crate) nodes: Vec<u32>,
}

impl Drop for Basis {
    fn drop(self) {
        let Basis {
            ready: _,
            cut: _,
            nodes: _,
        } = self;
    }
}

/// A request made ready; or the refusal of its profile, or of its first waypoint that is moved to
/// no node.
pub(crate) fn basis_of(
    alloc: Global,
    world: &World,
    profile: &Profile,
    request: &Request,
) -> Result<Basis, RouteError>
    requires within { IsWithin (asked request.now) }
    ensures exact { let question =
        question_of (world_of world.now) (sections_in profile.now) (asked request.now) in
        MatchResult result (IsBasisOf (world_of world.now) question)
        (RefusesEarly question) }
{
    match prepare(alloc, world, profile, &request.overrides) {
        Ok(ready) => basis_by(alloc, world, ready, request),
        Err(error) => Err(error),
    }
}

/// The same by a profile that was made ready for the world.
fn basis_by(
    alloc: Global,
    world: &World,
    ready: Ready,
    request: &Request,
) -> Result<Basis, RouteError>
    requires counted { (links_of ready.bound.value).count ≡ length (world_of world.now).map.links }
    requires within { IsWithin (asked request.now) }
    ensures exact { let setting =
        setting_of (world_of world.now) ready (asked request.now).circles in
        MatchResult result
        (IsBasisFor (world_of world.now) setting (asked request.now).waypoints)
        (λ e. (e ≡ NoMemory) ⊎
        RefusesWaypoint (open_map_of setting) (asked request.now).waypoints e) }
{
    let cut = cut(alloc, world.map(), request.circles.as_slice())?;
    basis_with(alloc, world, ready, request, cut)
}

/// The same where these links are cut.
fn basis_with(
    alloc: Global,
    world: &World,
    ready: Ready,
    request: &Request,
    cut: Vec<bool>,
) -> Result<Basis, RouteError>
    requires counted { (links_of ready.bound.value).count ≡ length (world_of world.now).map.links }
    requires within { IsWithin (asked request.now) }
    requires cut { cut.items ≡ cut_of (world_of world.now).map request.now.circles }
    ensures exact { let setting =
        setting_of (world_of world.now) ready (asked request.now).circles in
        MatchResult result
        (IsBasisFor (world_of world.now) setting (asked request.now).waypoints)
        (λ e. (e ≡ NoMemory) ⊎
        RefusesWaypoint (open_map_of setting) (asked request.now).waypoints e) }
{
    let passages = Passages {
        facts: &*ready.bound,
        cut: cut.as_slice(),
    };
    match waypoint_nodes(alloc, world, &passages, request.waypoints.as_slice()) {
        Err(error) => Err(error),
        Ok(nodes) => Ok(Basis { ready, cut, nodes }),
    }
}

/// The terrain of a request that was made ready for a world.
pub(crate) fn terrain<'a>(world: &'a World, basis: &'a Basis) -> PricedMap<'a, Bound>
    requires on { IsBasisOn (world_of world.now) basis.now }
    ensures exact { let seen : Terrain = record {
      map = result.map.now;
      links = links_of result.facts.now;
      prices = result.rates.now;
    } in seen ≡ terrain_of (world_of world.now) basis.now.ready }
{
    PricedMap::new(
        world.map(),
        &basis.ready.bound,
        &basis.ready.rates,
        basis.ready.modes(),
    )
}
