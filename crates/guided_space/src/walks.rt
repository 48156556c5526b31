//! The walks of runs over the space of a leg with a guide.

ghost use Rattle.std.specs.Prelude.{refl};

use crate::space::GuidedSpace;
use bike_space::LegSpace;
use cost_model::TerrainOf;
use item_list::Items;
use std::alloc::{AllocError, Global};

impl<'a, G: TerrainOf> LegSpace for GuidedSpace<'a, G> {
    ghost use Rattle.std.specs.Prelude.{refl};
    ghost use Rattle.guided_space.specs.Guided.{guided_task};

    ghost task = { λ it.
        guided_task (G.terrain it.space.now.terrain) it.space.now.kept it.guide.now };

    ghost lawful = { λ it. it.lawful };

    ghost searches = { λ it. refl };

    fn walk_of(&self, alloc: Global, choices: &[u32]) -> Result<Items<u32>, AllocError> {
        self.space.link_of(alloc, choices)
    }
}
