//! The search for the walk of a leg with what shows it least, in turns.

ghost use Rattle.std.specs.Prelude.{◌≡◌, ◌<◌, ◌≤◌, ◌+◌, ◌^◌, ℕ, IfOk, length};
ghost use Rattle.certificate_text.specs.declared.certificate.LowerBound.{LowerBound as TheLowerBound};
ghost use Rattle.cost_model.specs.Rides.{Leg};
ghost use Rattle.route_certificate.specs.Asks.{IsAsk, leg_in};
ghost use Rattle.route_certificate.specs.Provings.{IsProvingFor, IsStageFor, TurnsProving, counted_of, counted_yet, most_proved};

use crate::ask::TrackAsk;
use crate::space::{costs_alone, rests_opening};
use bike_space::{Opening, Rested};
use certificate_text::{LowerBound, Proof};
use cost_model::{Carry, TerrainOf};
use item_list::Turn;
use space_search::{Outcome, Search};
use std::alloc::{AllocError, Global};

/// How far the search on a leg is.
#[derive(Drop)]
pub(crate) enum Stage {
    /// The leg's nodes are one: nothing is searched.
    Home,
    /// What still has to be paid is being found.
    Opening(Opening),
    /// Labels are settled.
    Settling {
        /// What the space keeps.
        kept: Rested,
        search: Search<Carry>,
    },
}

/// The search for a least walk of a leg with what shows it least, at rest between its turns. It
/// borrows nothing: each turn is given the terrain again.
#[derive(Drop)]
pub struct Proving {
    pub(crate) stage: Stage,
    /// The most labels that are settled.
    pub(crate) limit: u64,
    /// What it has counted: a label that was settled counts one, and a step of finding what still
    /// has to be paid.
    pub(crate) counted: u64,
}

/// A turn of such a search.
#[derive(Drop)]
pub struct ProvingTurn {
    /// What it counted.
    pub counted: u64,
    /// Its answer: the search goes on, or it is at its end with a least walk and what shows it
    /// least, without a walk, or with a spent limit.
    pub turn: Turn<Proving, Outcome<Proof>>,
}

impl Proving {
    /// The search on the leg at a place of what is asked, by a lower bound, which settles at most
    /// `limit` labels. What still has to be paid by that bound is found by its first turns.
    pub fn new<G: TerrainOf>(
        alloc: Global,
        terrain: G,
        ask: &TrackAsk,
        place: usize,
        bound: LowerBound,
        limit: u64,
    ) -> Result<Proving, AllocError>
        requires asked { IsAsk (G.terrain terrain) ask.now }
        requires within { place + 1 < length ask.now.nodes.now }
        requires small { limit < 2 ^ 32 }
        ensures on { IfOk result (IsProvingFor (G.terrain terrain) bound
            (leg_in (G.terrain terrain) ask.now place) limit) }
        ensures fresh { IfOk result (λ proving. counted_of proving ≡ 0) }
    {
        let _links = terrain.map().links();
        let stage = first_stage(alloc, terrain, ask, place, bound, limit)?;
        Ok(Proving {
            stage,
            limit,
            counted: 0,
        })
    }

    /// Counts at most `quota`, over the terrain that the search began over. After want of memory
    /// nothing is left of the search.
    pub fn turn<G: TerrainOf>(
        self,
        alloc: Global,
        terrain: G,
        quota: u32,
    ) -> Result<ProvingTurn, AllocError>
        requires on { (bound : TheLowerBound) × (leg : Leg) × (limit : ℕ) ×
            IsProvingFor (G.terrain terrain) bound leg limit self }
        requires some { 1 ≤ quota }
        ensures turns { (bound : TheLowerBound) (leg : Leg) (limit : ℕ) →
            IsProvingFor (G.terrain terrain) bound leg limit self →
            IfOk result (TurnsProving (G.terrain terrain) bound leg limit quota
            (counted_of self)) }
    {
        let mut proving = self;
        let mut left = quota;
        'steps: loop {
            let ProvingTurn { counted, turn } = proving.step(alloc, terrain, left)?;
            left -= counted as u32;
            let counted = (quota - left) as u64;
            match turn {
                Turn::Done(end) => {
                    let turn = Turn::Done(end);
                    return Ok(ProvingTurn { counted, turn });
                }
                Turn::More(next) => {
                    if left == 0 {
                        let turn = Turn::More(next);
                        return Ok(ProvingTurn { counted, turn });
                    }
                    proving = next;
                }
            }
        }
    }
}

/// What a search on the leg at a place begins with.
fn first_stage<G: TerrainOf>(
    alloc: Global,
    terrain: G,
    ask: &TrackAsk,
    place: usize,
    bound: LowerBound,
    limit: u64,
) -> Result<Stage, AllocError>
    requires asked { IsAsk (G.terrain terrain) ask.now }
    requires within { place + 1 < length ask.now.nodes.now }
    requires small { limit < 2 ^ 32 }
    ensures on { IfOk result (IsStageFor (G.terrain terrain) bound
        (leg_in (G.terrain terrain) ask.now place) limit) }
    ensures few { IfOk result (λ stage. counted_yet limit stage ≤
        most_proved (length (G.terrain terrain).map.links) limit) }
{
    if ask.nodes[place] == ask.nodes[place + 1] {
        return Ok(Stage::Home);
    }
    match bound {
        LowerBound::Least => {
            let opening = rests_opening(alloc, &terrain, ask, place)?;
            Ok(Stage::Opening(opening))
        }
        LowerBound::Zero => {
            let space = costs_alone(alloc, terrain, ask, place)?;
            Ok(Stage::Settling {
                kept: space.rest(),
                search: Search::new(alloc, limit),
            })
        }
    }
}
