//! A space of a leg is made as a whole, put to rest and woken.

ghost use Rattle.std.specs.Prelude.{◌≡◌, ◌<◌, ◌-◌, ◌^◌, IfOk, None, length};
ghost use Rattle.space_search.specs.Laws.{HasEvenBound, IsDearest};
ghost use Rattle.bike_space.specs.Kept.{Wakes, leg_asked, task_of};
ghost use Rattle.bike_space.specs.Marks.{is_marked};
ghost use Rattle.bike_space.specs.Runs.{RunsAreWalks};
ghost use Rattle.bike_space.specs.Tasks.{rules_of};

use crate::ask::LegAsk;
use crate::opening::Opening;
use crate::rested::Rested;
use crate::space::BikeSpace;
use cost_model::TerrainOf;
use least_sums::Near;
use std::alloc::{AllocError, Global};

impl<G: TerrainOf> BikeSpace<G> {
    /// The space of the walks of a leg on a terrain. What still has to be paid is found up to a
    /// radius alone, as far as `near` says, and what is farther has that radius at least; without
    /// `near` it is found for all nodes.
    pub fn new(
        alloc: Global,
        terrain: G,
        ask: &LegAsk,
        near: Option<Near>,
    ) -> Result<BikeSpace<G>, AllocError>
        requires start { ask.now.start < length (G.terrain terrain).map.nodes }
        requires target { ask.now.target < length (G.terrain terrain).map.nodes }

        // It stands on the terrain, and searches the leg that was asked for.
        ensures terrain { IfOk result (λ space. space.terrain ≡ terrain) }
        ensures leg { IfOk result (λ space. (task_of (G.terrain terrain) space.kept).leg ≡
            leg_asked (G.terrain terrain) ask.now) }
        ensures used { IfOk result (λ space.
            (task_of (G.terrain terrain) space.kept).used ≡ is_marked ask.now.used.now) }

        // Without `near` what still has to be paid is found for all nodes.
        ensures whole { near ≡ None → IfOk result (λ space.
            (task_of (G.terrain terrain) space.kept).radius ≡ None) }

        // It is lawful, its runs are the walks of the leg, a start or step costs below 2^81, and
        // where a state has no bound none behind it has one.
        ensures wakes { IfOk result (λ space. Wakes (G.terrain terrain) space.kept) }
        ensures walks { IfOk result (λ space.
            RunsAreWalks (task_of (G.terrain terrain) space.kept)) }
        ensures cheap { IfOk result (λ space.
            IsDearest (rules_of (task_of (G.terrain terrain) space.kept)) (2 ^ 81 - 1)) }
        ensures even { IfOk result (λ space.
            HasEvenBound (rules_of (task_of (G.terrain terrain) space.kept))) }
    {
        let opening = Opening::new(alloc, &terrain, ask, near)?;
        let kept = opening.finish(alloc, &terrain)?;
        Ok(kept.wake(terrain))
    }

    /// The same space with what still has to be paid found for all nodes.
    pub fn widened(self, alloc: Global) -> Result<BikeSpace<G>, AllocError>
        ensures terrain { IfOk result (λ space. space.terrain ≡ self.terrain) }
        ensures leg { IfOk result (λ space. (task_of (G.terrain self.terrain) space.kept).leg ≡
            (task_of (G.terrain self.terrain) self.kept).leg) }
        ensures used { IfOk result (λ space. (task_of (G.terrain self.terrain) space.kept).used ≡
            (task_of (G.terrain self.terrain) self.kept).used) }
        ensures whole { IfOk result (λ space.
            (task_of (G.terrain self.terrain) space.kept).radius ≡ None) }
        ensures wakes { IfOk result (λ space. Wakes (G.terrain self.terrain) space.kept) }
    {
        let terrain = self.terrain;
        let opening = self.rest().widening(alloc, &terrain)?;
        let kept = opening.finish(alloc, &terrain)?;
        Ok(kept.wake(terrain))
    }

    /// The sum up to which it is known what still has to be paid; none where it is for all nodes.
    pub fn radius(&self) -> Option<u128>
        ensures value { result ≡
            (task_of (G.terrain self.now.terrain) self.now.kept).radius }
    {
        self.kept.low.radius()
    }

    /// What the space keeps of its own. It takes no memory.
    pub fn rest(self) -> Rested
        ensures kept { result ≡ self.kept }
        ensures wakes { Wakes (G.terrain self.terrain) result }
    {
        let BikeSpace { kept, .. } = self;
        kept
    }
}

impl Rested {
    /// The space that was put to rest, over the terrain that it was searched over. It takes no
    /// memory.
    pub fn wake<G: TerrainOf>(self, terrain: G) -> BikeSpace<G>
        requires wakes { Wakes (G.terrain terrain) self }
        ensures terrain { result.terrain ≡ terrain }
        ensures kept { result.kept ≡ self }
        ensures wakes { Wakes (G.terrain terrain) result.kept }
    {
        BikeSpace {
            terrain,
            kept: self,
        }
    }
}
