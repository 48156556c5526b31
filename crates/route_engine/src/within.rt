//! What lies within a cost of the waypoints of a request, found in turns.

ghost use Rattle.std.specs.Prelude.{◌≡◌, ◌≤◌};
ghost use Rattle.route_engine.specs.Jobs.{IsPlanOn, plan_of};
ghost use Rattle.route_engine.specs.NearbyJobs.{IsNearbyOn, LeavesText, StepsNearby, nearby_plan};
ghost use Rattle.route_ready.specs.World.{world_of};

use crate::listing::Listing;
use crate::plan::JobPlan;
use crate::sources::Source;
use crate::within_steps::{begun, gone_on, listed_on};
use route_ready::{RouteError, World};
use std::alloc::Global;
use tasks::Stepped;

/// What lies within a cost of waypoints: for each of them, in their order, the nodes of the map to
/// which a permitted walk costs at most that, by ascending number, each with what it costs at least.
pub struct Nearby {
    /// The cost, in millionths.
    pub cost: u64,
    pub lists: Vec<Vec<(u32, u128)>>,
}

impl Drop for Nearby {
    fn drop(self) {
        let Nearby { cost: _, lists: _ } = self;
    }
}

impl Nearby {
    /// The cost, and the lists.
    pub(crate) fn into_parts(self) -> (u64, Vec<Vec<(u32, u128)>>)
        ensures cost { result.0 ≡ self.cost }
        ensures lists { result.1 ≡ self.lists }
    {
        let Nearby { cost, lists } = self;
        (cost, lists)
    }
}

/// How far what lies within a cost of a waypoint is.
#[derive(Drop)]
pub(crate) enum NextList {
    /// Its search isn't begun.
    New,
    /// It is searched for.
    Searching(Source),
    /// What the search told is listed.
    Listed(Listing),
}

/// What lies within a cost of the waypoints of a request, found in turns: one search from each
/// waypoint. The alternative and the runs of the request have no effect on what is found.
pub struct WithinJob {
    pub(crate) alloc: Global,
    pub(crate) plan: JobPlan,
    /// What lies within the cost of the first waypoints.
    pub(crate) lists: Vec<Vec<(u32, u128)>>,
    /// How far it is with the waypoint behind them.
    pub(crate) next: NextList,
}

impl Drop for WithinJob {
    fn drop(self) {
        let WithinJob {
            alloc: _,
            plan: _,
            lists: _,
            next: _,
        } = self;
    }
}

impl WithinJob {
    /// A job for a plan over a world.
    pub(crate) fn with_plan(alloc: Global, _world: &World, plan: JobPlan) -> WithinJob
        requires on { IsPlanOn (world_of _world.now) plan }
        ensures on { IsNearbyOn (world_of _world.now) result }
        ensures plan { nearby_plan (world_of _world.now) result ≡
            plan_of (world_of _world.now) plan }
    {
        WithinJob {
            alloc,
            plan,
            lists: Vec::new(alloc),
            next: NextList::New,
        }
    }

    /// A step of it: the beginning of the search from its next waypoint, a turn of that search, or a
    /// step of the list of what that told.
    pub(crate) fn stepped(
        self,
        world: &World,
        budget: u32,
    ) -> Stepped<WithinJob, Result<Nearby, RouteError>>
        requires on { IsNearbyOn (world_of world.now) self }
        requires some { 1 ≤ budget }
        ensures steps { StepsNearby (world_of world.now) budget self result }
        ensures leaves { LeavesText (world_of world.now) self result }
    {
        let WithinJob {
            alloc,
            plan,
            lists,
            next,
        } = self;
        match next {
            NextList::New => begun(alloc, world, plan, lists, budget),
            NextList::Searching(source) => gone_on(alloc, world, plan, lists, source, budget),
            NextList::Listed(listing) => listed_on(alloc, world, plan, lists, listing, budget),
        }
    }
}
