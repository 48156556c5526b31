//! Whether a track is one.

ghost use Rattle.std.specs.Prelude.{◌≡◌, ◌↔◌, ◌<◌, ◌^◌, IsTrue, Some, suc};
ghost use Rattle.cost_model.specs.Rides.{ride_of};
ghost use Rattle.track_legs.specs.Tracks.{IsLegBetween, IsTrack, IsWalkAt};

use crate::costs::cost_along;
use crate::terrain_facts::TerrainFacts;
use crate::track::{Leg, Track};
use crate::walks::is_walk;
use cost_model::TerrainOf;

/// Whether there is one leg fewer than nodes, and each leg is a walk between its nodes that a rider
/// may take, with the cost that is kept: over links that their facts let a rider take and that
/// aren't cut, never back to where the link before left, and where `turns` count against no turn
/// restriction. It takes no memory.
pub fn recheck<G: TerrainOf>(track: &Track, terrain: &G, cut: &[bool], turns: bool) -> bool
    ensures exact { IsTrue result ↔ IsTrack (ride_of (record {
      terrain = G.terrain terrain.now;
      cut = cut.now;
      turns = turns;
    })) track.now }
{
    let nodes = track.nodes.as_slice();
    let legs = track.legs.as_slice();
    if !is_one_fewer(legs.len(), nodes.len()) {
        return false;
    }
    'legs: for place in 0..legs.len() {
        let (start, target) = (nodes[place], nodes[place + 1]);
        if !is_leg(&legs[place], start, target, terrain, cut, turns) {
            return false;
        }
    }
    true
}

/// Whether a count is one below another.
fn is_one_fewer(count: usize, other: usize) -> bool
    ensures exact { IsTrue result ↔ (suc count ≡ other) }
{
    count < other && other - count == 1
}

/// Whether a leg is a walk between two nodes that a rider may take, with the cost that is kept.
fn is_leg<G: TerrainOf>(
    leg: &Leg,
    start: u32,
    target: u32,
    terrain: &G,
    cut: &[bool],
    turns: bool,
) -> bool
    ensures exact { IsTrue result ↔ IsLegBetween (ride_of (record {
      terrain = G.terrain terrain.now;
      cut = cut.now;
      turns = turns;
    })) start target leg.now }
{
    let walk = leg.links.as_slice();
    is_walk_at(walk, leg.cost, start, target, terrain, cut, turns)
}

/// Whether these links are a walk between two nodes that a rider may take, and cost so much: over
/// links that their facts let a rider take and that aren't cut, never back to where the link before
/// left, and where `turns` count against no turn restriction. It takes no memory.
pub fn is_walk_at<G: TerrainOf>(
    walk: &[u32],
    cost: u128,
    start: u32,
    target: u32,
    terrain: &G,
    cut: &[bool],
    turns: bool,
) -> bool
    ensures exact { IsTrue result ↔ IsWalkAt (ride_of (record {
      terrain = G.terrain terrain.now;
      cut = cut.now;
      turns = turns;
    })) start target walk.now cost }
{
    let facts = TerrainFacts { terrain };
    is_walk(terrain, cut, turns, start, target, walk)
        && is_kept(cost_along(&facts, terrain.rates(), walk), cost)
}

/// Whether the cost that was found is the one that is kept.
fn is_kept(found: Option<u128>, kept: u128) -> bool
    ensures exact { IsTrue result ↔ (found ≡ Some kept) }
    ensures fits { kept < 2 ^ 128 }
{
    found == Some(kept)
}
