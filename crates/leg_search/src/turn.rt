//! The turns of a search on a leg.

ghost use Rattle.std.specs.Prelude.{◌≡◌, ◌≤◌, IfOk, length};
ghost use Rattle.leg_search.specs.Quests.{AnswersLegTurn, CountsLegTurn, IsSearchOn, counted_of, quest_of};

use crate::search::LegSearch;
use bike_space::Walk;
use cost_model::TerrainOf;
use item_list::Turn;
use space_search::Outcome;
use std::alloc::{AllocError, Global};

/// A turn of a search on a leg.
#[derive(Drop)]
pub struct LegTurn {
    /// What it counted: a label that it settled counts one, and a step of finding what still has to
    /// be paid.
    pub counted: u64,
    /// Its answer: the search goes on, or it is at its end with a walk of least rank, without one,
    /// or with a spent limit.
    pub turn: Turn<LegSearch, Outcome<Walk>>,
}

impl LegSearch {
    /// Counts at most `quota`, over the terrain that the search began over. After want of memory
    /// nothing is left of the search.
    pub fn turn<G: TerrainOf>(
        self,
        alloc: Global,
        terrain: G,
        quota: u32,
    ) -> Result<LegTurn, AllocError>
        requires on { IsSearchOn (G.terrain terrain) self }
        requires some { 1 ≤ quota }
        ensures answers { IfOk result (AnswersLegTurn (G.terrain terrain)
            (quest_of (G.terrain terrain) self)) }
        ensures counts { IfOk result (CountsLegTurn (length (G.terrain terrain).map.links) quota
            (counted_of self) (quest_of (G.terrain terrain) self).limit) }
    {
        let mut search = self;
        let mut left = quota;
        'steps: loop {
            let LegTurn { counted, turn } = search.step(alloc, terrain, left)?;
            left -= counted as u32;
            let counted = (quota - left) as u64;
            match turn {
                Turn::Done(end) => {
                    let turn = Turn::Done(end);
                    return Ok(LegTurn { counted, turn });
                }
                Turn::More(next) => {
                    if left == 0 {
                        let turn = Turn::More(next);
                        return Ok(LegTurn { counted, turn });
                    }
                    search = next;
                }
            }
        }
    }
}
