//! The links of a world, bound to a profile in turns.

ghost use Rattle.std.specs.Prelude.{◌≡◌, ◌≤◌, ◌/◌, length};
ghost use Rattle.route_ready.specs.Making.{IsLinking, LinkingEnds, linking_left};
ghost use Rattle.route_ready.specs.World.{world_of};
ghost use Rattle.tasks.specs.Steps.{Steps};

use crate::world::World;
use cost_model::Rates;
use item_list::Turn;
use profile_code::Code;
use std::alloc::Global;
use tasks::{Step, Stepped, Task, turn_of_steps};
use way_class::{BindError, Binder, Bound};

/// What is kept of a profile while its links are bound: the prices of climbing, and whether turn
/// restrictions count.
#[derive(Clone, Copy, Drop)]
pub struct KeptTerms {
    pub(crate) rates: Rates,
    pub(crate) turns: bool,
}

/// A profile, by its code, whose links are being bound.
pub struct Linking {
    pub(crate) code: Code,
    pub(crate) binder: Binder,
}

impl Drop for Linking {
    fn drop(self) {
        let Linking { code: _, binder: _ } = self;
    }
}

impl Linking {
    /// Goes on as far as a budget allows.
    fn bind_more(
        self,
        alloc: Global,
        world: &World,
        budget: u32,
    ) -> Stepped<Linking, Result<Bound, BindError>>
        requires over { IsLinking (world_of world.now) self }
        requires some { 1 ≤ budget }
        ensures steps { Steps (IsLinking (world_of world.now)) (LinkingEnds (world_of world.now))
            (linking_left (world_of world.now)) (λ _. 0) budget self result }
    {
        let Linking { code, binder } = self;
        let (table, map, tiles) = (world.table(), world.map(), world.tiles());
        let Stepped { spent, turn } = binder.step(alloc, &code, table, map, tiles, budget);
        match turn {
            Turn::More(binder) => Stepped {
                spent,
                turn: Turn::More(Linking { code, binder }),
            },
            Turn::Done(end) => Stepped {
                spent,
                turn: Turn::Done(end),
            },
        }
    }
}

impl Step for Linking {
    type Data = World;

    type Answer = Result<Bound, BindError>;

    ghost IsOver = { λ world l. IsLinking (world_of world) l };

    ghost answers = { λ world l end. LinkingEnds (world_of world) l end };

    ghost work_left = { λ world l. linking_left (world_of world) l };

    ghost free_left = { λ _ _. 0 };

    fn step(
        self,
        alloc: Global,
        dataset: &World,
        budget: u32,
    ) -> Stepped<Linking, Result<Bound, BindError>> {
        self.bind_more(alloc, dataset, budget)
    }
}

impl Task for Linking {
    type Data = World;

    type Answer = Result<Bound, BindError>;

    ghost IsOver = { λ world l. IsLinking (world_of world) l };

    ghost answers = { λ world l end. LinkingEnds (world_of world) l end };

    ghost turns_left = { λ world budget l. linking_left (world_of world) l / budget };

    fn take_turn(
        self,
        alloc: Global,
        dataset: &World,
        budget: u32,
    ) -> Turn<Linking, Result<Bound, BindError>> {
        turn_of_steps(alloc, dataset, self, budget)
    }
}
