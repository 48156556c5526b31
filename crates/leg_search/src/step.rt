//! The steps of a turn of a search on a leg.

ghost use Rattle.std.specs.Prelude.{◌≡◌, ℕ, ◌≤◌, ◌&&◌, IfOk, length};
ghost use Rattle.leg_search.specs.Quests.{AnswersLegTurn, IsSearchOn, quest_at, quest_of};
ghost use Rattle.leg_search.specs.Steps.{CountsLegStep, is_spent};
ghost use Rattle.leg_search.specs.declared.search.Stage.TheVariants as stages;

use crate::anew::begin_anew;
use crate::guided::guide_on;
use crate::raw::step_on;
use crate::search::{Aim, LegSearch, Stage};
use crate::told::{counting, is_spent, limit_of, told};
use crate::turn::LegTurn;
use bike_space::{Opening, Rested, Walk};
use cost_model::{Carry, TerrainOf};
use item_list::Turn;
use space_search::{Outcome, Search};
use std::alloc::{AllocError, Global};

impl LegSearch {
    /// Counts at most `quota`. Where the search changes what it does, it goes on in another step.
    pub(crate) fn step<G: TerrainOf>(
        self,
        alloc: Global,
        terrain: G,
        quota: u32,
    ) -> Result<LegTurn, AllocError>
        requires on { IsSearchOn (G.terrain terrain) self }
        requires some { 1 ≤ quota }
        ensures answers { IfOk result (AnswersLegTurn (G.terrain terrain)
            (quest_of (G.terrain terrain) self)) }
        ensures counts { IfOk result
            (CountsLegStep (length (G.terrain terrain).map.links) quota self) }
    {
        let LegSearch { stage, aim } = self;
        match stage {
            Stage::Opening(opening) => open_on(alloc, terrain, opening, aim),
            Stage::Settling { kept, search } => {
                settle_on(alloc, terrain, kept, search, aim, quota)
            }
            Stage::Guided(it) => guide_on(alloc, terrain, it, aim, quota),
        }
    }
}

/// A step of finding what still has to be paid; at its end labels are settled.
fn open_on<G: TerrainOf>(
    alloc: Global,
    terrain: G,
    opening: Opening,
    aim: Aim,
) -> Result<LegTurn, AllocError>
    requires on { IsSearchOn (G.terrain terrain)
        (record { stage = stages.Opening opening; aim = aim }) }
    ensures answers { IfOk result (AnswersLegTurn (G.terrain terrain)
        (quest_at (G.terrain terrain) aim (stages.Opening opening))) }
    ensures counts { (quota : ℕ) → 1 ≤ quota → IfOk result (CountsLegStep
        (length (G.terrain terrain).map.links) quota
        (record { stage = stages.Opening opening; aim = aim })) }
{
    let limit = limit_of(&aim);
    let stage = match opening.step(alloc, &terrain)? {
        Turn::More(opening) => Stage::Opening(opening),
        Turn::Done(kept) => Stage::Settling {
            kept,
            search: Search::new(alloc, limit),
        },
    };
    let aim = counting(aim, 1);
    Ok(LegTurn {
        counted: 1,
        turn: Turn::More(LegSearch { stage, aim }),
    })
}

/// A step in which labels are settled. Where the first search spends its limit, the search begins
/// anew.
fn settle_on<G: TerrainOf>(
    alloc: Global,
    terrain: G,
    kept: Rested,
    search: Search<Carry>,
    aim: Aim,
    quota: u32,
) -> Result<LegTurn, AllocError>
    requires on { IsSearchOn (G.terrain terrain)
        (record { stage = stages.Settling kept search; aim = aim }) }
    requires some { 1 ≤ quota }
    ensures answers { IfOk result (AnswersLegTurn (G.terrain terrain)
        (quest_at (G.terrain terrain) aim (stages.Settling kept search))) }
    ensures counts { IfOk result (CountsLegStep (length (G.terrain terrain).map.links) quota
        (record { stage = stages.Settling kept search; aim = aim })) }
{
    let mut search = search;
    let space = kept.wake(terrain);
    let step = step_on(alloc, &space, &mut (), &mut search, quota, aim.runs)?;
    let kept = space.rest();
    let anew = begins_anew(&aim, &step.1);
    let aim = counting(aim, step.0);
    if anew {
        let next = begin_anew(alloc, terrain, kept, aim)?;
        return Ok(LegTurn {
            counted: step.0,
            turn: Turn::More(next),
        });
    }
    let stage = Stage::Settling { kept, search };
    Ok(told(LegSearch { stage, aim }, step))
}

/// Whether the limit of a search is spent that hasn't begun anew.
fn begins_anew(aim: &Aim, turn: &Turn<(), Outcome<Walk>>) -> bool
    ensures value { result ≡ (aim.now.first && is_spent turn.now) }
{
    aim.first && is_spent(turn)
}
