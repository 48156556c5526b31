//! A space without goals, whose lower bound says nothing.

ghost use Rattle.std.specs.Prelude.{◌≡◌};
ghost use Rattle.space_search.specs.Laws.{IsSpace};
ghost use Rattle.cost_table.specs.Endless.{endless};

use space_search::{Known, Point, Space, Steps};
use std::alloc::AllocError;

/// A space as one without goals, in which ranks are costs: a search over it settles whatever is
/// reached, the cheaper first. Whichever target the space was made with, it has no effect. It takes
/// no memory.
#[derive(Drop)]
pub(crate) struct Endless<'a, S: Space> {
    pub(crate) space: &'a S,
    ghost keeps: { IsSpace (endless (S.rules space.now)) },
}

impl<'a, S: Space> Endless<'a, S> {
    /// The space without goals of a space.
    pub(crate) fn new(space: &'a S) -> Endless<'a, S>
        ensures space { result.space.now ≡ space.now }
    {
        Endless { space }
    }
}

impl<'a, S: Space> Space for Endless<'a, S> {
    ghost use Rattle.cost_table.specs.Endless.{endless};

    type State = S::State;

    type Bounds = ();

    ghost AreBounds = { λ _ _. Unit {0} };

    ghost rules = { λ it. endless (S.rules it.space.now) };

    ghost keeps_laws = { λ it. it.keeps };

    fn slots(&self) -> u32 {
        self.space.slots()
    }

    fn slot(&self, state: &S::State) -> u32 {
        self.space.slot(state)
    }

    fn starts(&self) -> u32 {
        self.space.starts()
    }

    fn start(&self, number: u32) -> Option<(S::State, u128)> {
        self.space.start(number)
    }

    fn steps(&self, state: &S::State) -> u32 {
        self.space.steps(state)
    }

    fn step(&self, state: &S::State, number: u32) -> Option<(S::State, u128)> {
        self.space.step(state, number)
    }

    fn list_steps(
        &self,
        state: &S::State,
        cost: u128,
        known: &Known<S::State>,
        found: &mut Steps<S::State>,
    ) -> Result<(), AllocError> {
        self.space.list_steps(state, cost, known, found)
    }

    fn goal(&self, _state: &S::State) -> bool {
        false
    }

    fn covers(&self, a: &S::State, ca: u128, b: &S::State, cb: u128) -> bool {
        self.space.covers(a, ca, b, cb)
    }

    fn point(&self, state: &S::State, cost: u128) -> Point {
        self.space.point(state, cost)
    }

    fn supersedes(&self, a: &S::State, ca: u128, b: &S::State, cb: u128) -> bool {
        self.space.supersedes(a, ca, b, cb)
    }

    fn low(&self, _bounds: &mut (), _state: &S::State) -> Result<Option<u128>, AllocError> {
        Ok(Some(0))
    }
}
