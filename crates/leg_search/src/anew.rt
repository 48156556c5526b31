//! A search on a leg begins anew.

ghost use Rattle.std.specs.Prelude.{◌≡◌, ◌+◌, IfOk, false, length};
ghost use Rattle.least_sums.specs.Findings.{most_found};
ghost use Rattle.leg_search.specs.Anew.{BeginsAnew, MayBegin};
ghost use Rattle.ride_bounds.specs.Guides.{IsGuide};

use crate::search::{Aim, Guiding, LegSearch, Stage};
use bike_space::Rested;
use cost_model::TerrainOf;
use guided_space::GuidedSpace;
use ride_bounds::Guide;
use space_search::Search;
use std::alloc::{AllocError, Global};
use std::rc::Rc;

/// The search begins anew: by the bound of its guide, where it has one, else with what still has to be
/// paid found for all nodes.
pub(crate) fn begin_anew<G: TerrainOf>(
    alloc: Global,
    terrain: G,
    kept: Rested,
    aim: Aim,
) -> Result<LegSearch, AllocError>
    requires may { MayBegin (G.terrain terrain) kept aim
        (aim.limit + (most_found (length (G.terrain terrain).map.links) + aim.limit)) }
    ensures begins { IfOk result (BeginsAnew (G.terrain terrain) kept aim 3) }
{
    let Aim {
        limit,
        runs,
        first: _,
        counted,
        guide,
    } = aim;
    let aim = Aim {
        limit,
        runs,
        first: false,
        counted,
        guide: None,
    };
    match guide {
        Some(guide) => begin_guided(alloc, terrain, kept, aim, guide),
        None => begin_whole(alloc, terrain, kept, aim),
    }
}

/// The search begins anew by the bound of a guide.
fn begin_guided<G: TerrainOf>(
    alloc: Global,
    terrain: G,
    kept: Rested,
    aim: Aim,
    guide: Rc<Guide>,
) -> Result<LegSearch, AllocError>
    requires may { MayBegin (G.terrain terrain) kept aim
        (aim.limit + (most_found (length (G.terrain terrain).map.links) + aim.limit)) }
    requires later { aim.first ≡ false }
    requires fits { IsGuide (G.terrain terrain) guide.value }
    ensures begins { IfOk result (BeginsAnew (G.terrain terrain) kept aim 3) }
{
    let space = kept.wake(terrain);
    let bound = GuidedSpace::new(alloc, &space, &guide).bound()?;
    let kept = space.rest();
    let search = Search::new(alloc, aim.limit);
    let stage = Stage::Guided(Guiding {
        kept,
        search,
        guide,
        bound,
    });
    Ok(LegSearch { stage, aim })
}

/// The search begins anew, and what still has to be paid is found for all nodes.
pub(crate) fn begin_whole<G: TerrainOf>(
    alloc: Global,
    terrain: G,
    kept: Rested,
    aim: Aim,
) -> Result<LegSearch, AllocError>
    requires may { MayBegin (G.terrain terrain) kept aim
        (most_found (length (G.terrain terrain).map.links) + aim.limit) }
    requires later { aim.first ≡ false }
    ensures begins { IfOk result (BeginsAnew (G.terrain terrain) kept aim 2) }
{
    let opening = kept.widening(alloc, &terrain)?;
    let stage = Stage::Opening(opening);
    Ok(LegSearch { stage, aim })
}
