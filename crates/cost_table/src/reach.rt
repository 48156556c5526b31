//! A search from a node that finds what it costs to come to others.

ghost use Rattle.std.specs.List.{Contains, IsDistinct};
ghost use Rattle.std.specs.Option.{IsSome};
ghost use Rattle.std.specs.Prelude.{ℕ, ◌≡◌, ◌+◌, ◌-◌, ◌↔◌, ◌≤◌, ◌<◌, ◌^◌, IfOk, OnErr, Ok, Err, alloc_error, false, nat_eq};
ghost use Rattle.bike_space.specs.Kept.{task_of};
ghost use Rattle.bike_space.specs.Tasks.{Task};
ghost use Rattle.cost_table.specs.Costs.{IsAsked, TellsCost, leg_to};
ghost use Rattle.cost_table.specs.Reaches.{AnswersReach, CountsReach, HasEnded, IsDone, IsFailed, IsFresh, IsReachOn, cost_in, quest_of, settled_of};

use crate::found::Found;
use crate::turn::ReachTurn;
use crate::want::Want;
use bike_space::BikeSpace;
use cost_model::{Carry, TerrainOf};
use overpass_graph::Map;
use space_search::Search;
use std::alloc::{AllocError, Global};

/// How far a reach is.
#[derive(Clone, Copy)]
pub(crate) enum Stage {
    /// No turn was made.
    New,
    /// It goes on.
    Running,
    /// All that is asked for is found.
    Done,
    /// The limit is spent.
    Spent,
    /// A turn met want of memory.
    Failed,
}

/// A search for what it costs to come from a node to others. It borrows no space: each turn is
/// given the space again.
pub struct Reach {
    pub(crate) search: Search<Carry>,
    pub(crate) found: Found,
    /// The node that is left.
    pub(crate) source: u32,
    /// How many labels may be settled.
    pub(crate) limit: u64,
    /// How many labels are settled.
    pub(crate) settled: u32,
    pub(crate) stage: Stage,
}

impl Drop for Reach {
    fn drop(self) {
        let Reach {
            search: _,
            found: _,
            source: _,
            limit: _,
            settled: _,
            stage: _,
        } = self;
    }
}

impl Reach {
    /// A search from a node that settles at most `limit` labels, before its first turn. It takes no
    /// memory.
    pub fn new(alloc: Global, source: u32, want: Want, limit: u64) -> Reach
        requires small { limit < 2 ^ 32 }
        ensures on { (task : Task) → task.leg.start ≡ source → IsReachOn task result }
        ensures quest { (task : Task) → quest_of task result ≡ record {
          ride = task.leg.ride;
          source = task.leg.start;
          want = want;
          limit = limit;
        } }
        ensures fresh { IsFresh result }
        ensures none { settled_of result ≡ 0 }
    {
        Reach {
            search: Search::new(alloc, with_one_more(limit)),
            found: Found::new(alloc, want),
            source,
            limit,
            settled: 0,
            stage: Stage::New,
        }
    }

    /// How many labels are settled. It takes no memory.
    pub fn settled(&self) -> u32
        ensures value { result ≡ settled_of self.now }
    {
        self.settled
    }

    /// What it costs to come to a node at least; none where the node isn't reached, or not within
    /// the cost that is asked for. It takes no memory.
    pub fn cost_to(&self, node: u32) -> Option<u128>
        ensures value { result ≡ cost_in self.now node }
        ensures exact { (task : Task) → IsReachOn task self.now → IsDone self.now →
            let quest = quest_of task self.now in
            IsAsked quest.want node → TellsCost quest.want (leg_to quest node) result }
    {
        self.found.cost_of(node)
    }

    /// The nodes of which a cost is told, in the order in which they were found: the node that is
    /// left and, once the reach is done, those that are asked for and reached. It takes no memory.
    pub fn nodes(&self) -> &[u32]
        ensures exact { (node : ℕ) → Contains result.now node ↔ IsSome (cost_in self.now node) }
        ensures distinct { IsDistinct nat_eq result.now }
    {
        self.found.nodes()
    }

    /// Settles at most `quota` labels, over a space that answers every call as that of the first
    /// turn. It ends as soon as all that is asked for is found.
    ///
    /// After its last answer a reach gives that answer again, and after want of memory it answers
    /// want of memory.
    pub fn turn<G: TerrainOf>(
        &mut self,
        space: &BikeSpace<G>,
        map: &Map,
        quota: u32,
    ) -> Result<ReachTurn, AllocError>
        requires on { IsReachOn (task_of (G.terrain space.now.terrain) space.now.kept) self.old }
        requires unused { (link : ℕ) →
            (task_of (G.terrain space.now.terrain) space.now.kept).used link ≡ false }
        requires map { map.now ≡ (G.terrain space.now.terrain).map }
        requires some { 1 ≤ quota }

        ensures on { IsReachOn (task_of (G.terrain space.now.terrain) space.now.kept) self.new }
        ensures same { (task : Task) → quest_of task self.new ≡ quest_of task self.old }

        ensures exact { IfOk result (AnswersReach (quest_of
            (task_of (G.terrain space.now.terrain) space.now.kept) self.old) self.new) }
        ensures counts { IfOk result (CountsReach quota (quest_of
            (task_of (G.terrain space.now.terrain) space.now.kept) self.old).limit
            (settled_of self.old) (settled_of self.new)) }
        ensures grows { settled_of self.old ≤ settled_of self.new }
        ensures within { settled_of self.new ≤ (quest_of
            (task_of (G.terrain space.now.terrain) space.now.kept) self.old).limit }

        ensures again { (turn : _) → HasEnded self.old turn →
            (result ≡ Ok turn) × (self.new ≡ self.old) }
        ensures failed { OnErr result (IsFailed self.new) }
        ensures fails_again { IsFailed self.old → result ≡ Err alloc_error }
    {
        let stage = self.stage;
        match stage {
            Stage::New => self.first_turn(space, map, quota),
            Stage::Running => self.go_on(space, map, quota),
            Stage::Done => Ok(ReachTurn::Done),
            Stage::Spent => Ok(ReachTurn::Budget),
            Stage::Failed => Err(AllocError),
        }
    }
}

/// The limit of a search that looks at one label more than is settled: it tells whether that one is
/// within what is asked for. A search can't hold more than `u32::MAX` labels.
fn with_one_more(limit: u64) -> u64
    requires small { limit < 2 ^ 32 }
    ensures small { result < 2 ^ 32 }
    ensures value { limit < 2 ^ 32 - 1 → result ≡ limit + 1 }
{
    if limit < 4294967295 { limit + 1 } else { limit }
}
