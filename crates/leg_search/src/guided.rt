//! A step in which labels are settled by the bound of a guide.

ghost use Rattle.std.specs.Prelude.{◌≤◌, IfOk, length};
ghost use Rattle.leg_search.specs.Quests.{AnswersLegTurn, IsSearchOn, quest_at};
ghost use Rattle.leg_search.specs.Steps.{CountsLegStep};
ghost use Rattle.leg_search.specs.declared.search.Stage.TheVariants as stages;

use crate::anew::begin_whole;
use crate::raw::step_on;
use crate::search::{Aim, Guiding, LegSearch, Stage};
use crate::told::{counting, is_spent, told};
use crate::turn::LegTurn;
use cost_model::TerrainOf;
use guided_space::GuidedSpace;
use item_list::Turn;
use std::alloc::{AllocError, Global};

/// A step in which labels are settled by the bound of a guide. Where its limit is spent, the search
/// begins anew: what still has to be paid is found for all nodes.
pub(crate) fn guide_on<G: TerrainOf>(
    alloc: Global,
    terrain: G,
    it: Guiding,
    aim: Aim,
    quota: u32,
) -> Result<LegTurn, AllocError>
    requires on { IsSearchOn (G.terrain terrain)
        (record { stage = stages.Guided it; aim = aim }) }
    requires some { 1 ≤ quota }
    ensures answers { IfOk result (AnswersLegTurn (G.terrain terrain)
        (quest_at (G.terrain terrain) aim (stages.Guided it))) }
    ensures counts { IfOk result (CountsLegStep (length (G.terrain terrain).map.links) quota
        (record { stage = stages.Guided it; aim = aim })) }
{
    let Guiding {
        kept,
        search,
        guide,
        bound,
    } = it;
    let mut search = search;
    let mut bound = bound;
    let space = kept.wake(terrain);
    let guided = GuidedSpace::new(alloc, &space, &guide);
    let step = step_on(alloc, &guided, &mut bound, &mut search, quota, aim.runs)?;
    let kept = space.rest();
    let aim = counting(aim, step.0);
    if is_spent(&step.1) {
        guide.give_back(bound);
        let next = begin_whole(alloc, terrain, kept, aim)?;
        return Ok(LegTurn {
            counted: step.0,
            turn: Turn::More(next),
        });
    }
    let stage = Stage::Guided(Guiding {
        kept,
        search,
        guide,
        bound,
    });
    Ok(told(LegSearch { stage, aim }, step))
}
