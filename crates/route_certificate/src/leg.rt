//! Whether a walk is shown least on a leg.

ghost use Rattle.std.specs.Prelude.{◌≡◌, ◌↔◌, ◌<◌, ◌≤◌, ◌+◌, ◌^◌, ℕ, IfOk, IsTrue, Ok, None, false, length};
ghost use Rattle.bike_space.specs.Kept.{task_of};
ghost use Rattle.bike_space.specs.LegWalks.{IsLeastWalk};
ghost use Rattle.certificate_text.specs.declared.certificate.LowerBound.{LowerBound};
ghost use Rattle.cost_model.specs.Rides.{leg_between};
ghost use Rattle.route_certificate.specs.Asks.{IsAsk, leg_in, setting_in};
ghost use Rattle.route_certificate.specs.Legs.{AreRestsBelow, IsFirstFault, IsWalkOf};

use crate::ask::TrackAsk;
use crate::closing::first_flaw;
use crate::entries::are_in_bounds;
use crate::space::leg_space_below;
use crate::verdict::Why;
use bike_space::BikeSpace;
use certificate_text::{LowerBound, Proof};
use cost_model::TerrainOf;
use std::alloc::{AllocError, Global};
use track_legs::is_walk_at;

/// The first condition that fails of what is to show the walk of the leg at a place least, if any
/// does. Where none does, the walk is least.
pub(crate) fn leg_fault<G: TerrainOf>(
    alloc: Global,
    terrain: G,
    ask: &TrackAsk,
    place: usize,
    bound: LowerBound,
    proof: &Proof,
) -> Result<Option<Why>, AllocError>
    requires asked { IsAsk (G.terrain terrain) ask.now }
    requires within { place + 1 < length ask.now.nodes.now }
    ensures exact { IfOk result
        (IsFirstFault bound (leg_in (G.terrain terrain) ask.now place) proof.now) }
    ensures least { result ≡ Ok None →
        IsLeastWalk (leg_in (G.terrain terrain) ask.now place) proof.now.walk.items }
    ensures fits { result ≡ Ok None → length proof.now.walk.items ≤ 2 ^ 32 →
        proof.now.cost < 2 ^ 113 }
{
    let (start, target) = (ask.nodes[place], ask.nodes[place + 1]);
    if !is_walk_of(&terrain, ask, start, target, proof) {
        return Ok(Some(Why::Walk));
    }
    let space = leg_space_below(alloc, terrain, ask, place, bound, proof.cost)?;
    space_fault(alloc, &space, proof)
}

/// Whether the walk is one between two nodes at the cost that is kept, which is 0 where they are
/// one.
fn is_walk_of<G: TerrainOf>(
    terrain: &G,
    ask: &TrackAsk,
    start: u32,
    target: u32,
    proof: &Proof,
) -> bool
    ensures exact { IsTrue result ↔ IsWalkOf
        (leg_between (setting_in (G.terrain terrain.now) ask.now) start target) proof.now }
{
    let walk = proof.walk.as_slice();
    is_home(start, target, proof.cost)
        && is_walk_at(walk, proof.cost, start, target, terrain, ask.cut, ask.turns)
}

/// Whether a cost is 0 where two nodes are one.
fn is_home(start: u32, target: u32, cost: u128) -> bool
    ensures exact { IsTrue result ↔ (start ≡ target → cost ≡ 0) }
{
    cost == 0 || start != target
}

/// The first condition that fails of the labels that are to show a walk least in the space of its
/// leg, if any does.
fn space_fault<G: TerrainOf>(
    alloc: Global,
    space: &BikeSpace<G>,
    proof: &Proof,
) -> Result<Option<Why>, AllocError>
    requires unused { (link : ℕ) →
        (task_of (G.terrain space.now.terrain) space.now.kept).used link ≡ false }
    requires walk { IsWalkOf (task_of (G.terrain space.now.terrain) space.now.kept).leg proof.now }
    ensures exact { (bound : LowerBound) → AreRestsBelow bound
        (task_of (G.terrain space.now.terrain) space.now.kept).leg proof.now.cost
        (task_of (G.terrain space.now.terrain) space.now.kept).low → IfOk result
        (IsFirstFault bound (task_of (G.terrain space.now.terrain) space.now.kept).leg proof.now) }
    ensures least { result ≡ Ok None → IsLeastWalk
        (task_of (G.terrain space.now.terrain) space.now.kept).leg proof.now.walk.items }
    ensures fits { result ≡ Ok None → length proof.now.walk.items ≤ 2 ^ 32 →
        proof.now.cost < 2 ^ 113 }
{
    let entries = proof.entries.as_slice();
    if !are_in_bounds(space, entries) {
        return Ok(Some(Why::Bounds));
    }
    first_flaw(alloc, space, entries, proof.cost)
}
