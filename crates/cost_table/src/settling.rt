//! The labels that a turn of a reach settles.

ghost use Rattle.std.specs.Prelude.{ℕ, ◌≡◌, IfOk, OnErr, false};
ghost use Rattle.space_search.specs.declared.outcome.Outcome.TheVariants as outcome;
ghost use Rattle.bike_space.specs.Kept.{task_of};
ghost use Rattle.cost_table.specs.Reaches.{AnswersReach, CountsReach, EndsBy, IsFailed, IsFresh, IsNoted, IsOneMore, IsReachOn, IsUnderWay, StaysReach, StepsTo, TurnsReach, quest_of, settled_of, stage_after};

use crate::endless::Endless;
use crate::reach::{Reach, Stage};
use crate::turn::ReachTurn;
use bike_space::BikeSpace;
use cost_model::TerrainOf;
use item_list::Turn;
use overpass_graph::Map;
use space_search::Outcome;
use std::alloc::AllocError;

impl Reach {
    /// The first turn: the node that is left is found, and where that is all, no label is settled.
    pub(crate) fn first_turn<G: TerrainOf>(
        &mut self,
        space: &BikeSpace<G>,
        map: &Map,
        quota: u32,
    ) -> Result<ReachTurn, AllocError>
        requires on { IsReachOn (task_of (G.terrain space.now.terrain) space.now.kept) self.old }
        requires fresh { IsFresh self.old }
        requires unused { (link : ℕ) →
            (task_of (G.terrain space.now.terrain) space.now.kept).used link ≡ false }
        requires map { map.now ≡ (G.terrain space.now.terrain).map }
        ensures turns { TurnsReach (task_of (G.terrain space.now.terrain) space.now.kept)
            self.old self.new }
        ensures exact { IfOk result (AnswersReach (quest_of
            (task_of (G.terrain space.now.terrain) space.now.kept) self.old) self.new) }
        ensures counts { IfOk result (CountsReach quota (quest_of
            (task_of (G.terrain space.now.terrain) space.now.kept) self.old).limit
            (settled_of self.old) (settled_of self.new)) }
        ensures failed { OnErr result (IsFailed self.new) }
    {
        self.stage = Stage::Failed;
        if self.found.begin(self.source)? {
            self.stage = Stage::Done;
            return Ok(ReachTurn::Done);
        }
        self.go_on(space, map, quota)
    }

    /// A turn of a reach that is under way.
    pub(crate) fn go_on<G: TerrainOf>(
        &mut self,
        space: &BikeSpace<G>,
        map: &Map,
        quota: u32,
    ) -> Result<ReachTurn, AllocError>
        requires way { IsUnderWay (task_of (G.terrain space.now.terrain) space.now.kept) self.old }
        requires unused { (link : ℕ) →
            (task_of (G.terrain space.now.terrain) space.now.kept).used link ≡ false }
        requires map { map.now ≡ (G.terrain space.now.terrain).map }
        ensures turns { TurnsReach (task_of (G.terrain space.now.terrain) space.now.kept)
            self.old self.new }
        ensures exact { IfOk result (AnswersReach (quest_of
            (task_of (G.terrain space.now.terrain) space.now.kept) self.old) self.new) }
        ensures counts { IfOk result (CountsReach quota (quest_of
            (task_of (G.terrain space.now.terrain) space.now.kept) self.old).limit
            (settled_of self.old) (settled_of self.new)) }
        ensures failed { OnErr result (IsFailed self.new) }
    {
        self.stage = Stage::Failed;
        let turn = self.settle_many(space, map, quota)?;
        self.stage = after_turn(turn);
        Ok(turn)
    }

    /// Settles labels until as many are settled as the quota says, or the reach is at its end.
    fn settle_many<G: TerrainOf>(
        &mut self,
        space: &BikeSpace<G>,
        map: &Map,
        quota: u32,
    ) -> Result<ReachTurn, AllocError>
        requires way { IsUnderWay (task_of (G.terrain space.now.terrain) space.now.kept) self.old }
        requires unused { (link : ℕ) →
            (task_of (G.terrain space.now.terrain) space.now.kept).used link ≡ false }
        requires map { map.now ≡ (G.terrain space.now.terrain).map }
        ensures stays { StaysReach (task_of (G.terrain space.now.terrain) space.now.kept)
            self.old self.new }
        ensures steps { IfOk result (StepsTo (task_of (G.terrain space.now.terrain) space.now.kept)
            (quest_of (task_of (G.terrain space.now.terrain) space.now.kept) self.old) self.new) }
        ensures counts { IfOk result (CountsReach quota (quest_of
            (task_of (G.terrain space.now.terrain) space.now.kept) self.old).limit
            (settled_of self.old) (settled_of self.new)) }
    {
        let mut count = 0;
        'labels: while count < quota {
            match self.settle(space, map)? {
                ReachTurn::More => count += 1,
                ReachTurn::Done => return Ok(ReachTurn::Done),
                ReachTurn::Budget => return Ok(ReachTurn::Budget),
            }
        }
        Ok(ReachTurn::More)
    }

    /// Settles one label, and notes what it costs to come where it arrives.
    fn settle<G: TerrainOf>(
        &mut self,
        space: &BikeSpace<G>,
        map: &Map,
    ) -> Result<ReachTurn, AllocError>
        requires way { IsUnderWay (task_of (G.terrain space.now.terrain) space.now.kept) self.old }
        requires unused { (link : ℕ) →
            (task_of (G.terrain space.now.terrain) space.now.kept).used link ≡ false }
        requires map { map.now ≡ (G.terrain space.now.terrain).map }
        ensures stays { StaysReach (task_of (G.terrain space.now.terrain) space.now.kept)
            self.old self.new }
        ensures steps { IfOk result (StepsTo (task_of (G.terrain space.now.terrain) space.now.kept)
            (quest_of (task_of (G.terrain space.now.terrain) space.now.kept) self.old) self.new) }
        ensures counts { IfOk result (CountsReach 1 (quest_of
            (task_of (G.terrain space.now.terrain) space.now.kept) self.old).limit
            (settled_of self.old) (settled_of self.new)) }
    {
        let turn = self.search.turn(&Endless::new(space), &mut (), 1);
        match turn? {
            Turn::More(_) => self.note(space, map),
            Turn::Done(end) => ended(end),
        }
    }

    /// Notes what it costs to come where the last settled label arrives, and counts the label. One
    /// more than the limit is neither noted nor counted: it is looked at alone.
    fn note<G: TerrainOf>(
        &mut self,
        _space: &BikeSpace<G>,
        map: &Map,
    ) -> Result<ReachTurn, AllocError>
        requires more { IsOneMore
            (task_of (G.terrain _space.now.terrain) _space.now.kept) self.old }
        requires unused { (link : ℕ) →
            (task_of (G.terrain _space.now.terrain) _space.now.kept).used link ≡ false }
        requires map { map.now ≡ (G.terrain _space.now.terrain).map }
        ensures stays { IsNoted self.old self.new }
        ensures counts { IfOk result (CountsReach 1 (quest_of
            (task_of (G.terrain _space.now.terrain) _space.now.kept) self.old).limit
            (settled_of self.old) (settled_of self.new)) }
        ensures steps { IfOk result (StepsTo
            (task_of (G.terrain _space.now.terrain) _space.now.kept)
            (quest_of (task_of (G.terrain _space.now.terrain) _space.now.kept) self.old) self.new) }
    {
        let label = self.settled;
        let cost = self.search.cost_of(label);
        if label as u64 == self.limit {
            return Ok(self.found.past(cost));
        }
        self.settled += 1;
        let node = map.link(self.search.state_of(label).link).to;
        if self.found.note(node, cost)? {
            Ok(ReachTurn::Done)
        } else {
            Ok(ReachTurn::More)
        }
    }
}

/// The end of a reach by that of its search, which finds no goal. It is want of memory where the
/// search can hold no more labels.
fn ended(end: Outcome<u32>) -> Result<ReachTurn, AllocError>
    ensures value { IfOk result (EndsBy end) }
    ensures full { OnErr result (end ≡ outcome.Budget) }
{
    match end {
        Outcome::Budget => Err(AllocError),
        _ => Ok(ReachTurn::Done),
    }
}

/// How far a reach is after this turn.
fn after_turn(turn: ReachTurn) -> Stage
    ensures value { result ≡ stage_after turn }
{
    match turn {
        ReachTurn::More => Stage::Running,
        ReachTurn::Done => Stage::Done,
        ReachTurn::Budget => Stage::Spent,
    }
}
