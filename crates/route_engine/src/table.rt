//! A table of costs that is found in turns.

ghost use Rattle.std.specs.Prelude.{◌≡◌, ◌⊎◌, ◌≤◌, IfErr, IfOk, length};
ghost use Rattle.route_engine.specs.Jobs.{IsPlanFor, IsPlanOn, IsWithin, plan_of, setting_of};
ghost use Rattle.route_engine.specs.Settings.{open_map_of};
ghost use Rattle.route_engine.specs.TableJobs.{IsTableOn, rows_left, table_plan, work_of_table};
ghost use Rattle.route_engine.specs.Searches.{StepsSearch};
ghost use Rattle.route_engine.specs.Tables.{IsTable, IsTableRefusal};
ghost use Rattle.route_engine.specs.Waypoints.{RefusesWaypoint};
ghost use Rattle.route_http.specs.Seen.{asked};
ghost use Rattle.route_ready.specs.Fits.{FitsMap};
ghost use Rattle.route_ready.specs.World.{world_of};
ghost use Rattle.route_ready.specs.declared.error.RouteError.TheVariants.{NoMemory};

use crate::job::plan_for;
use crate::plan::JobPlan;
use crate::table_stage::{CostRows, TableStage};
use crate::table_steps::{next_source, step};
use item_list::Turn;
use route_http::Request;
use route_ready::{Ready, RouteError, World};
use std::alloc::{AllocError, Global};
use std::rc::Rc;
use tasks::Stepped;

/// The costs between the waypoints of a request, found in turns: one search from each waypoint of a
/// row finds what it costs to come to those of all columns. The alternative, the form and the runs
/// of the request have no effect.
pub struct TableJob {
    pub(crate) alloc: Global,
    pub(crate) plan: JobPlan,
    pub(crate) stage: TableStage,
}

impl Drop for TableJob {
    fn drop(self) {
        let TableJob {
            alloc: _,
            plan: _,
            stage: _,
        } = self;
    }
}

impl TableJob {
    /// A job for a request over a world, with a profile that was made ready for it. It is refused
    /// where a waypoint is moved to no node.
    pub fn new(
        alloc: Global,
        world: &World,
        ready: Rc<Ready>,
        request: Request,
    ) -> Result<TableJob, RouteError>
        requires fits { FitsMap (world_of world.now).map ready.value }
        requires within { IsWithin (asked request) }
        ensures on { IfOk result (IsTableOn (world_of world.now)) }
        ensures plan { let setting =
            setting_of (world_of world.now) ready.value (asked request).circles in
            IfOk result (λ job. IsPlanFor setting (asked request)
            (table_plan (world_of world.now) job)) }
        ensures cause { let setting =
            setting_of (world_of world.now) ready.value (asked request).circles in
            IfErr result (λ e. (e ≡ NoMemory) ⊎
            RefusesWaypoint (open_map_of setting) (asked request).waypoints e) }
    {
        let plan = plan_for(alloc, world, ready, request)?;
        let job = TableJob::with_plan(alloc, world, plan)?;
        Ok(job)
    }

    /// A job for a plan over a world.
    pub(crate) fn with_plan(
        alloc: Global,
        world: &World,
        plan: JobPlan,
    ) -> Result<TableJob, AllocError>
        requires on { IsPlanOn (world_of world.now) plan }
        ensures on { IfOk result (IsTableOn (world_of world.now)) }
        ensures plan { IfOk result (λ job.
            table_plan (world_of world.now) job ≡ plan_of (world_of world.now) plan) }
    {
        let stage = next_source(alloc, world, &plan, Vec::new(alloc))?;
        Ok(TableJob { alloc, plan, stage })
    }

    /// A step of it: a turn of the search for its next row.
    pub(crate) fn stepped(
        self,
        world: &World,
        budget: u32,
    ) -> Stepped<TableJob, Result<CostRows, RouteError>>
        requires on { IsTableOn (world_of world.now) self }
        requires some { 1 ≤ budget }
        ensures steps { let world = world_of world.now in
            StepsSearch (IsTableOn world) (table_plan world)
            (λ job. work_of_table (table_plan world job) job.stage)
            (λ job. rows_left (table_plan world job) job.stage) IsTable IsTableRefusal budget self
            result }
    {
        let TableJob { alloc, plan, stage } = self;
        match stage {
            TableStage::Searching { rows, source } => {
                let next = step(alloc, world, &plan, rows, source, budget);
                let spent = next.settled as u32;
                Stepped {
                    spent,
                    turn: Turn::More(TableJob {
                        alloc,
                        plan,
                        stage: next.stage,
                    }),
                }
            }
            TableStage::Found(table) => Stepped {
                spent: 0,
                turn: Turn::Done(Ok(table)),
            },
            TableStage::Refused(error) => Stepped {
                spent: 0,
                turn: Turn::Done(Err(error)),
            },
        }
    }
}
