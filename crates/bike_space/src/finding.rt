//! A walk of least rank, found by a whole search.

ghost use Rattle.std.specs.Prelude.{◌≡◌, ◌≢◌, ℕ, IsTrue, ◌*◌, ◌<◌, ◌≤◌, ◌^◌, IfOk, length, refl};
ghost use Rattle.bike_space.specs.Answers.{AnswersLeg};
ghost use Rattle.bike_space.specs.Enough.{IsFlat, held_pairs};
ghost use Rattle.bike_space.specs.Kept.{task_of};
ghost use Rattle.bike_space.specs.Lawful.{IsTask};
ghost use Rattle.bike_space.specs.Runs.{IsSomeRun};
ghost use Rattle.bike_space.specs.Tasks.{Task, rules_of, walk_by};
ghost use Rattle.space_search.specs.Limits.{IsUnspent};
ghost use Rattle.space_search.specs.Outcome.{Answers};

use crate::space::BikeSpace;
use cost_model::{Carry, TerrainOf};
use item_list::Items;
use space_search::{Outcome, Run, Space, least};
use std::alloc::{AllocError, Global};

/// A walk with its rank.
#[derive(Drop)]
pub struct Walk {
    /// Its links.
    pub links: Items<u32>,
    /// Its rank.
    pub rank: u128,
}

/// A space that tells its lower bounds without memory.
pub trait TellsRests: Space {
    /// What still has to be paid from a state at least, as `low` says.
    fn rest(&self, state: &Self::State) -> Option<u128>
        requires valid { IsTrue ((Self.rules self.now).is_valid state.now) }
        ensures value { result ≡ (Self.rules self.now).low state.now };
}

/// A space of the walks of a leg: it answers as the search on a leg does, whatever its lower bound.
pub trait LegSpace: Space<State = Carry> {
    /// The search on the leg.
    ghost task: { Self → Task };

    /// The links of the walk of these choices, which are a run of the space.
    fn walk_of(&self, alloc: Global, choices: &[u32]) -> Result<Items<u32>, AllocError>
        requires run { IsSomeRun (task self.now) choices.now }
        ensures walk { IfOk result (λ walk. walk ≡ walk_by (task self.now).leg choices.now) };

    /// The search is lawful.
    ghost lawful: { (space : Self) → IsTask (task space) };

    /// What the space answers is what the search asks for.
    ghost searches: { (space : Self) → Self.rules space ≡ rules_of (task space) };
}

impl<G: TerrainOf> LegSpace for BikeSpace<G> {
    ghost use Rattle.bike_space.specs.Kept.{task_of};

    ghost task = { λ space. task_of (G.terrain space.terrain) space.kept };

    ghost lawful = { λ space. space.wakes.lawful };

    ghost searches = { λ space. refl };

    fn walk_of(&self, alloc: Global, choices: &[u32]) -> Result<Items<u32>, AllocError> {
        self.link_of(alloc, choices)
    }
}

/// The end of a search over a space of walks, with the walk of the run that was found.
pub fn walk_outcome<S: LegSpace>(
    alloc: Global,
    space: &S,
    outcome: Outcome<Run>,
) -> Result<Outcome<Walk>, AllocError>
    requires answers { (limit : ℕ) × Answers (S.rules space.now) limit outcome }
    ensures told { IfOk result (λ told. (limit : ℕ) → limit < 2 ^ 32 →
        Answers (S.rules space.now) limit outcome →
        (let task = S.task space.now in task.leg.start ≢ task.leg.target →
        AnswersLeg task.leg task.used task.radius limit told)) }
    ensures unspent { IsUnspent outcome → IfOk result IsUnspent }
{
    match outcome {
        Outcome::Found(run) => {
            let links = space.walk_of(alloc, run.choices.as_slice())?;
            let rank = run.cost;
            Ok(Outcome::Found(Walk { links, rank }))
        }
        Outcome::NoWay => Ok(Outcome::NoWay),
        Outcome::Budget => Ok(Outcome::Budget),
    }
}

/// A walk of least rank of a leg whose nodes differ, or that it has none, or that `limit` labels
/// are settled and one more would be.
pub fn least_walk<G: TerrainOf>(
    alloc: Global,
    space: &BikeSpace<G>,
    limit: u64,
) -> Result<Outcome<Walk>, AllocError>
    requires small { limit < 2 ^ 32 }
    requires differ { space.now.kept.start ≢ space.now.kept.target }
    ensures answers { IfOk result (λ outcome. let task =
        task_of (G.terrain space.now.terrain) space.now.kept in
        AnswersLeg task.leg task.used task.radius limit outcome) }

    // So many labels are enough: as many as links where climbing costs nothing, and as many as
    // links times pairs of buffers always.
    ensures enough { IsFlat (task_of (G.terrain space.now.terrain) space.now.kept).leg →
        length (G.terrain space.now.terrain).map.links ≤ limit → IfOk result IsUnspent }
    ensures always { length (G.terrain space.now.terrain).map.links *
        held_pairs (G.terrain space.now.terrain).prices ≤ limit → IfOk result IsUnspent }
{
    let outcome = least(alloc, space, &mut (), limit)?;
    walk_outcome(alloc, space, outcome)
}
