//! A walk of least rank, found by a whole search over junction runs.

ghost use Rattle.std.specs.Prelude.{ℕ, ◌≢◌, ◌*◌, ◌<◌, ◌≤◌, ◌^◌, IfOk, length};
ghost use Rattle.bike_space.specs.Enough.{IsFlat, held_pairs};
ghost use Rattle.bike_space.specs.Kept.{task_of};
ghost use Rattle.junction_runs.specs.RunAnswers.{AnswersByRuns};
ghost use Rattle.junction_runs.specs.RunRules.{run_rules};
ghost use Rattle.space_search.specs.Limits.{IsUnspent};
ghost use Rattle.space_search.specs.Outcome.{Answers};

use crate::space::RunSpace;
use bike_space::{BikeSpace, LegSpace, Walk};
use cost_model::TerrainOf;
use space_search::{Outcome, Run, least};
use std::alloc::{AllocError, Global};

impl<'a, S: LegSpace> RunSpace<'a, S> {
    /// The end of a search over the junction runs of a leg, with the walk of the run that was found.
    pub fn walk_outcome(
        &self,
        alloc: Global,
        outcome: Outcome<Run>,
    ) -> Result<Outcome<Walk>, AllocError>
        requires answers { (limit : ℕ) ×
            Answers (run_rules (S.rules self.now.space.now)) limit outcome }
        ensures told { IfOk result (λ told. (limit : ℕ) → limit < 2 ^ 32 →
            Answers (run_rules (S.rules self.now.space.now)) limit outcome →
            (let task = S.task self.now.space.now in task.leg.start ≢ task.leg.target →
            AnswersByRuns task.leg task.used task.radius limit told)) }
        ensures unspent { IsUnspent outcome → IfOk result IsUnspent }
    {
        match outcome {
            Outcome::Found(run) => {
                let links = self.link_of(alloc, run.choices.as_slice())?;
                let rank = run.cost;
                Ok(Outcome::Found(Walk { links, rank }))
            }
            Outcome::NoWay => Ok(Outcome::NoWay),
            Outcome::Budget => Ok(Outcome::Budget),
        }
    }
}

/// A walk of least rank of a leg whose nodes differ, searched from junction to junction, or that
/// the leg has none, or that `limit` labels at ends of runs are settled and one more would be.
pub fn least_walk_by_runs<G: TerrainOf>(
    alloc: Global,
    space: &BikeSpace<G>,
    limit: u64,
) -> Result<Outcome<Walk>, AllocError>
    requires small { limit < 2 ^ 32 }
    requires differ { space.now.kept.start ≢ space.now.kept.target }
    ensures answers { IfOk result (λ outcome. let task =
        task_of (G.terrain space.now.terrain) space.now.kept in
        AnswersByRuns task.leg task.used task.radius limit outcome) }

    // As many labels are enough as without junction runs.
    ensures enough { IsFlat (task_of (G.terrain space.now.terrain) space.now.kept).leg →
        length (G.terrain space.now.terrain).map.links ≤ limit → IfOk result IsUnspent }
    ensures always { length (G.terrain space.now.terrain).map.links *
        held_pairs (G.terrain space.now.terrain).prices ≤ limit → IfOk result IsUnspent }
{
    let runs = RunSpace::new(space);
    let outcome = least(alloc, &runs, &mut (), limit)?;
    runs.walk_outcome(alloc, outcome)
}
