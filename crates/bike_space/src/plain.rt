//! A space of a leg of which nothing is found that still has to be paid.

ghost use Rattle.std.specs.Prelude.{◌≡◌, ◌<◌, ℕ, IfOk, Some, false, length};
ghost use Rattle.cost_model.specs.Rides.{leg_between};
ghost use Rattle.space_search.specs.Laws.{IsBlind};
ghost use Rattle.bike_space.specs.Kept.{Wakes, task_of};
ghost use Rattle.bike_space.specs.Tasks.{rules_of};

use crate::rested::Rested;
use crate::space::BikeSpace;
use cost_model::TerrainOf;
use least_sums::unknown_sums;
use std::alloc::{AllocError, Global};

impl<G: TerrainOf> BikeSpace<G> {
    /// The space of the walks of a leg on a terrain, in which a rank is a cost: no segment is used,
    /// and nothing is found that still has to be paid, so that the lower bound is 0 everywhere.
    pub fn plain(
        alloc: Global,
        terrain: G,
        cut: &[bool],
        turns: bool,
        start: u32,
        target: u32,
    ) -> Result<BikeSpace<G>, AllocError>
        requires start { start < length (G.terrain terrain).map.nodes }
        requires target { target < length (G.terrain terrain).map.nodes }

        // It stands on the terrain, and searches the leg that was asked for.
        ensures terrain { IfOk result (λ space. space.terrain ≡ terrain) }
        ensures leg { IfOk result (λ space. (task_of (G.terrain terrain) space.kept).leg ≡
            leg_between (record {
              terrain = G.terrain terrain;
              cut = cut.now;
              turns = turns;
            }) start target) }
        ensures unused { IfOk result (λ space. (link : ℕ) →
            (task_of (G.terrain terrain) space.kept).used link ≡ false) }

        // It is lawful, and its lower bound says nothing.
        ensures wakes { IfOk result (λ space. Wakes (G.terrain terrain) space.kept) }
        ensures radius { IfOk result (λ space.
            (task_of (G.terrain terrain) space.kept).radius ≡ Some 0) }
        ensures blind { IfOk result (λ space.
            IsBlind (rules_of (task_of (G.terrain terrain) space.kept))) }
    {
        let kept = rested(alloc, &terrain, cut, turns, start, target)?;
        Ok(kept.wake(terrain))
    }
}

/// What such a space keeps.
fn rested<G: TerrainOf>(
    alloc: Global,
    terrain: &G,
    cut: &[bool],
    turns: bool,
    start: u32,
    target: u32,
) -> Result<Rested, AllocError>
    requires start { start < length (G.terrain terrain.now).map.nodes }
    requires target { target < length (G.terrain terrain.now).map.nodes }
    ensures leg { IfOk result (λ kept. (task_of (G.terrain terrain.now) kept).leg ≡
        leg_between (record {
          terrain = G.terrain terrain.now;
          cut = cut.now;
          turns = turns;
        }) start target) }
    ensures unused { IfOk result (λ kept. (link : ℕ) →
        (task_of (G.terrain terrain.now) kept).used link ≡ false) }
    ensures wakes { IfOk result (Wakes (G.terrain terrain.now)) }
    ensures radius { IfOk result (λ kept.
        (task_of (G.terrain terrain.now) kept).radius ≡ Some 0) }
    ensures none { IfOk result (λ kept. (link : ℕ) →
        link < length (G.terrain terrain.now).map.links →
        (task_of (G.terrain terrain.now) kept).low link ≡ Some 0) }
{
    // What the map and the rates promise of themselves.
    let map = terrain.map();
    let _links = map.links();
    let _rate = terrain.rates().down_rate();
    let low = unknown_sums(alloc, map)?;
    let cut = Vec::from_slice(alloc, cut)?;
    // What is behind the end of a list isn't marked, so that no list says that no link is used.
    let used = Vec::new(alloc);
    Ok(Rested {
        low,
        cut,
        used,
        start,
        target,
        turns,
    })
}
