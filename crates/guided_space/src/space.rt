//! The space of a leg with the bound of a guide in place of its own.

ghost use Rattle.std.specs.Prelude.{◌≡◌, IfOk};
ghost use Rattle.space_search.specs.Laws.{IsSpace};
ghost use Rattle.bike_space.specs.Lawful.{IsTask};
ghost use Rattle.bike_space.specs.Tasks.{rules_of};
ghost use Rattle.guided_space.specs.Guided.{IsGuidedTo, guided_task};
ghost use Rattle.ride_bounds.specs.Guides.{IsGuide};

use bike_space::BikeSpace;
use cost_model::{Carry, TerrainOf};
use ride_bounds::{Guide, LegBound};
use space_search::{Known, Point, Space, Steps};
use std::alloc::{AllocError, Global};

/// The space of a leg, in which what still has to be paid at least is told by a guide of the terrain.
/// All else is as the space of the leg says.
#[derive(Drop)]
pub struct GuidedSpace<'a, G: TerrainOf> {
    /// Bounds are found in this.
    alloc: Global,
    pub(crate) space: &'a BikeSpace<G>,
    pub(crate) guide: &'a Guide,
    ghost lawful: { IsTask (guided_task (G.terrain space.now.terrain) space.now.kept guide.now) },
    ghost keeps: { IsSpace (rules_of
        (guided_task (G.terrain space.now.terrain) space.now.kept guide.now)) },
}

impl<'a, G: TerrainOf> GuidedSpace<'a, G> {
    /// The space of a leg with the bound of a guide of its terrain.
    pub fn new(alloc: Global, space: &'a BikeSpace<G>, guide: &'a Guide) -> GuidedSpace<'a, G>
        requires fits { IsGuide (G.terrain space.now.terrain) guide.now }
        ensures space { result.space.now ≡ space.now }
        ensures guide { result.guide.now ≡ guide.now }
    {
        guide.is_lawful(&space.terrain());
        GuidedSpace {
            alloc,
            space,
            guide,
        }
    }

    /// The bounds of the leg by the guide, of which none was asked for.
    pub fn bound(&self) -> Result<LegBound, AllocError>
        requires fits { IsGuide (G.terrain self.now.space.now.terrain) self.now.guide.now }
        ensures are { IfOk result (IsGuidedTo (G.terrain self.now.space.now.terrain)
            self.now.guide.now self.now.space.now.kept.target) }
    {
        let terrain = self.space.terrain();
        let mut bound = self.guide.lend(self.alloc)?;
        bound.retarget(self.alloc, &terrain, self.guide, self.space.target())?;
        Ok(bound)
    }
}

impl<'a, G: TerrainOf> Space for GuidedSpace<'a, G> {
    ghost use Rattle.bike_space.specs.Tasks.{rules_of};
    ghost use Rattle.guided_space.specs.Guided.{IsGuidedTo, guided_task};

    type State = Carry;

    type Bounds = LegBound;

    ghost AreBounds = { λ it bound. IsGuidedTo (G.terrain it.space.now.terrain) it.guide.now
        it.space.now.kept.target bound };

    ghost rules = { λ it. rules_of
        (guided_task (G.terrain it.space.now.terrain) it.space.now.kept it.guide.now) };

    ghost keeps_laws = { λ it. it.keeps };

    fn slots(&self) -> u32 {
        self.space.slots()
    }

    fn slot(&self, state: &Carry) -> u32 {
        self.space.slot(state)
    }

    fn starts(&self) -> u32 {
        self.space.starts()
    }

    fn start(&self, number: u32) -> Option<(Carry, u128)> {
        self.space.start(number)
    }

    fn steps(&self, state: &Carry) -> u32 {
        self.space.steps(state)
    }

    fn step(&self, state: &Carry, number: u32) -> Option<(Carry, u128)> {
        self.space.step(state, number)
    }

    fn list_steps(
        &self,
        state: &Carry,
        cost: u128,
        known: &Known<Carry>,
        found: &mut Steps<Carry>,
    ) -> Result<(), AllocError> {
        self.space.list_steps(state, cost, known, found)
    }

    fn goal(&self, state: &Carry) -> bool {
        self.space.goal(state)
    }

    fn covers(&self, a: &Carry, ca: u128, b: &Carry, cb: u128) -> bool {
        self.space.covers(a, ca, b, cb)
    }

    fn point(&self, state: &Carry, cost: u128) -> Point {
        self.space.point(state, cost)
    }

    // A link has one bound, so of its labels those that rank no less cost no less.
    fn supersedes(&self, a: &Carry, ca: u128, b: &Carry, cb: u128) -> bool {
        a.link == b.link && self.space.supersedes(a, ca, b, cb)
    }

    fn low(&self, bounds: &mut LegBound, state: &Carry) -> Result<Option<u128>, AllocError> {
        let terrain = self.space.terrain();
        let target = self.space.target();
        bounds.at(self.alloc, &terrain, self.guide, target, state.link)
    }
}
