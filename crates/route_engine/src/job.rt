//! A request that is answered in turns.

ghost use Rattle.std.specs.Prelude.{◌≡◌, ◌⊎◌, ◌≤◌, IfErr, IfOk, length};
ghost use Rattle.route_engine.specs.Jobs.{IsJobOn, IsPlanFor, IsPlanOn, IsWithin, plan_in, plan_of, setting_of};
ghost use Rattle.route_engine.specs.Placings.{IsPlaced};
ghost use Rattle.route_engine.specs.Plans.{IsRefusal, IsTrackFor};
ghost use Rattle.route_engine.specs.Progress.{searches_left};
ghost use Rattle.route_engine.specs.Searches.{StepsSearch, work_of_job};
ghost use Rattle.route_engine.specs.Settings.{open_map_of};
ghost use Rattle.route_engine.specs.Waypoints.{RefusesWaypoint};
ghost use Rattle.route_http.specs.Seen.{asked};
ghost use Rattle.route_ready.specs.Fits.{FitsMap};
ghost use Rattle.route_ready.specs.World.{world_of};
ghost use Rattle.route_ready.specs.declared.error.RouteError.TheVariants.{NoMemory};

use crate::advance::{advance, next_stage};
use crate::placing::Placing;
use crate::plan::JobPlan;
use crate::stage::Stage;
use crate::walked::Walked;
use item_list::Turn;
use route_http::Request;
use route_ready::{Ready, RouteError, World};
use std::alloc::{AllocError, Global};
use std::rc::Rc;
use tasks::{Stepped, finish};
use track_legs::Track;

/// A request that is answered in turns: its legs are searched one after the other, and of each the
/// alternatives up to the one that is asked for. Besides the labels that are settled, the beginning
/// of each search behind another counts: as 2,000 labels, or as what is left of the turn if that is
/// less.
pub struct Job {
    pub(crate) alloc: Global,
    pub(crate) plan: JobPlan,
    pub(crate) stage: Stage,
}

impl Drop for Job {
    fn drop(self) {
        let Job {
            alloc: _,
            plan: _,
            stage: _,
        } = self;
    }
}

impl Job {
    /// A job for a request over a world, with a profile that was made ready for it. It is refused
    /// where a waypoint is moved to no node.
    pub fn new(
        alloc: Global,
        world: &World,
        ready: Rc<Ready>,
        request: Request,
    ) -> Result<Job, RouteError>
        requires fits { FitsMap (world_of world.now).map ready.value }
        requires within { IsWithin (asked request) }
        ensures on { IfOk result (IsJobOn (world_of world.now)) }
        ensures plan { let setting =
            setting_of (world_of world.now) ready.value (asked request).circles in
            IfOk result (λ job. IsPlanFor setting (asked request)
            (plan_in (world_of world.now) job)) }
        ensures cause { let setting =
            setting_of (world_of world.now) ready.value (asked request).circles in
            IfErr result (λ e. (e ≡ NoMemory) ⊎
            RefusesWaypoint (open_map_of setting) (asked request).waypoints e) }
    {
        let plan = plan_for(alloc, world, ready, request)?;
        let job = Job::with_plan(alloc, world, plan)?;
        Ok(job)
    }

    /// A job for a plan over a world.
    pub(crate) fn with_plan(alloc: Global, world: &World, plan: JobPlan) -> Result<Job, AllocError>
        requires on { IsPlanOn (world_of world.now) plan }
        ensures on { IfOk result (IsJobOn (world_of world.now)) }
        ensures plan { IfOk result (λ job.
            plan_in (world_of world.now) job ≡ plan_of (world_of world.now) plan) }
    {
        let stage = next_stage(alloc, world, &plan, Walked::new(alloc))?;
        Ok(Job { alloc, plan, stage })
    }

    /// A step of it: a turn of the search for its next walk, and the beginning of the next one.
    pub(crate) fn stepped(
        self,
        world: &World,
        budget: u32,
    ) -> Stepped<Job, Result<Track, RouteError>>
        requires on { IsJobOn (world_of world.now) self }
        requires some { 1 ≤ budget }
        ensures steps { let world = world_of world.now in
            StepsSearch (IsJobOn world) (plan_in world)
            (λ job. work_of_job (plan_in world job) job.stage)
            (λ job. searches_left (plan_in world job) job.stage) IsTrackFor IsRefusal budget self
            result }
    {
        let Job { alloc, plan, stage } = self;
        match stage {
            Stage::Searching { walked, search } => {
                let next = advance(alloc, world, &plan, walked, search, budget);
                let spent = next.searched as u32 + next.beginning;
                Stepped {
                    spent,
                    turn: Turn::More(Job {
                        alloc,
                        plan,
                        stage: next.stage,
                    }),
                }
            }
            Stage::Found(track) => Stepped {
                spent: 0,
                turn: Turn::Done(Ok(track)),
            },
            Stage::Refused(error) => Stepped {
                spent: 0,
                turn: Turn::Done(Err(error)),
            },
        }
    }
}

/// What a request is to find; or the refusal of its first waypoint that is moved to no node.
pub(crate) fn plan_for(
    alloc: Global,
    world: &World,
    ready: Rc<Ready>,
    request: Request,
) -> Result<JobPlan, RouteError>
    requires fits { FitsMap (world_of world.now).map ready.value }
    requires within { IsWithin (asked request) }
    ensures placed { IsPlaced (world_of world.now) ready.value (asked request) result }
{
    let request = Rc::new(alloc, request)?;
    plan_by(alloc, world, ready, request)
}

/// The same for a request that others share.
pub(crate) fn plan_by(
    alloc: Global,
    world: &World,
    ready: Rc<Ready>,
    request: Rc<Request>,
) -> Result<JobPlan, RouteError>
    requires fits { FitsMap (world_of world.now).map ready.value }
    requires within { IsWithin (asked request.value) }
    ensures placed { IsPlaced (world_of world.now) ready.value (asked request.value) result }
{
    let placing = Placing::new(alloc, world, ready, request)?;
    finish(alloc, world, placing)
}
