//! A walk of least rank by a search whose space is put to rest after each turn, and woken for the
//! next.

ghost use Rattle.std.specs.Prelude.{◌≡◌, ◌<◌, ◌^◌};

use bike_space::{BikeSpace, Walk, walk_outcome};
use cost_model::{Carry, TerrainOf};
use item_list::Turn;
use space_search::{Outcome, Search};
use std::alloc::{AllocError, Global};

/// How many labels a turn settles at most.
const QUOTA: u32 = 1;

/// What a search over this space of a terrain answers, in turns of one label.
pub(crate) fn least_walk_woken<G: TerrainOf>(
    alloc: Global,
    space: BikeSpace<G>,
    terrain: G,
    limit: u64,
) -> Result<Outcome<Walk>, AllocError>
    requires small { limit < 2 ^ 32 }
    requires terrain { space.terrain ≡ terrain }
{
    let mut space = space;
    let mut search: Search<Carry> = Search::new(alloc, limit);
    'search: loop {
        match search.turn(&space, &mut (), QUOTA)? {
            Turn::More(_) => {}
            Turn::Done(end) => {
                let outcome = search.outcome(alloc, end)?;
                return walk_outcome(alloc, &space, outcome);
            }
        }
        space = space.rest().wake(terrain);
    }
}
