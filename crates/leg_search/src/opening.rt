//! A search on a leg begins.

ghost use Rattle.std.specs.Prelude.{◌≡◌, ◌≢◌, ◌<◌, ◌^◌, IfOk, length};
ghost use Rattle.bike_space.specs.Kept.{leg_asked};
ghost use Rattle.bike_space.specs.Marks.{is_marked};
ghost use Rattle.leg_search.specs.Quests.{IsSearchOn, counted_of, quest_of};
ghost use Rattle.ride_bounds.specs.Guides.{IsGuided};

use crate::search::{Aim, LegSearch, NEAR_SUM, Stage};
use bike_space::{LegAsk, Opening};
use cost_model::TerrainOf;
use least_sums::Near;
use ride_bounds::Guide;
use std::alloc::{AllocError, Global};
use std::rc::Rc;

impl LegSearch {
    /// A search on a leg of a terrain whose nodes differ, which settles at most `limit` labels, and
    /// goes from junction to junction where `runs` says so. What still has to be paid is found by
    /// its first turns, for the nodes near the target. That is enough for short legs; where it isn't,
    /// a later turn begins the search anew: by the bound of a guide of the terrain, where one is given,
    /// and where that isn't there, or its limit is spent, with what still has to be paid found for all
    /// nodes.
    pub fn new<G: TerrainOf>(
        alloc: Global,
        terrain: G,
        ask: &LegAsk,
        limit: u64,
        runs: bool,
        guide: Option<Rc<Guide>>,
    ) -> Result<LegSearch, AllocError>
        requires start { ask.now.start < length (G.terrain terrain).map.nodes }
        requires target { ask.now.target < length (G.terrain terrain).map.nodes }
        requires differ { ask.now.start ≢ ask.now.target }
        requires small { limit < 2 ^ 32 }
        requires guided { IsGuided (G.terrain terrain) guide }

        // It is a search on the leg that was asked for, and has counted nothing.
        ensures on { IfOk result (IsSearchOn (G.terrain terrain)) }
        ensures quest { IfOk result (λ search. quest_of (G.terrain terrain) search ≡ record {
          leg = leg_asked (G.terrain terrain) ask.now;
          used = is_marked ask.now.used.now;
          limit = limit;
          runs = runs;
        }) }
        ensures fresh { IfOk result (λ search. counted_of search ≡ 0) }
    {
        // What the map promises of itself.
        let _links = terrain.map().links();
        let near = near_by(&guide, ask.start);
        let opening = Opening::new(alloc, &terrain, ask, Some(near))?;
        Ok(LegSearch {
            stage: Stage::Opening(opening),
            aim: Aim {
                limit,
                runs,
                first: true,
                counted: 0,
                guide,
            },
        })
    }
}

/// How far what still has to be paid is found at first: up to a sum where there is a guide, else up to
/// the start.
fn near_by(guide: &Option<Rc<Guide>>, start: u32) -> Near {
    match guide {
        Some(_) => Near::Sum(NEAR_SUM),
        None => Near::Node(start),
    }
}
