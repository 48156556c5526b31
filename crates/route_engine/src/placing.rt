//! The waypoints of a request are moved to nodes in steps, behind the cuts of its circles.

ghost use Rattle.std.specs.Prelude.{◌≡◌, ◌/◌, ◌≤◌, IfOk, MatchResult, length};
ghost use Rattle.route_engine.specs.Jobs.{IsWithin};
ghost use Rattle.route_engine.specs.Placings.{IsPlaced, IsPlacingOn, IsPlanWith, StepsTo, free_stages, placing_for, work_of_placing};
ghost use Rattle.route_http.specs.Seen.{asked};
ghost use Rattle.route_ready.specs.Fits.{FitsMap};
ghost use Rattle.route_ready.specs.World.{world_of};
ghost use Rattle.route_ready.specs.declared.error.RouteError.TheVariants.{NoMemory};

use crate::numbers::chosen;
use crate::placing_stage::{PlacingStage, PlacingStep};
use crate::placing_steps::{cut_more, first_stage, move_next};
use crate::plan::JobPlan;
use item_list::{Items, Turn};
use route_http::Request;
use route_ready::{Ready, RouteError, World};
use std::alloc::{AllocError, Global};
use std::rc::Rc;
use tasks::{Step, Stepped, Task, turn_of_steps};

/// A request whose waypoints are moved to nodes in steps: its circles cut links first, of which each
/// counts as one; then the waypoints are moved one after the other, each of which counts as 500, or
/// as what is left of the turn if that is less.
pub struct Placing {
    pub(crate) ready: Rc<Ready>,
    pub(crate) request: Rc<Request>,
    pub(crate) stage: PlacingStage,
}

impl Drop for Placing {
    fn drop(self) {
        let Placing {
            ready: _,
            request: _,
            stage: _,
        } = self;
    }
}

impl Placing {
    /// A request over a world, by a profile that was made ready for it. No link is cut yet and no
    /// waypoint moved.
    pub fn new(
        alloc: Global,
        world: &World,
        ready: Rc<Ready>,
        request: Rc<Request>,
    ) -> Result<Placing, AllocError>
        requires fits { FitsMap (world_of world.now).map ready.value }
        requires within { IsWithin (asked request.value) }
        ensures on { IfOk result (IsPlacingOn (world_of world.now)) }
        ensures ready { IfOk result (λ p. p.ready.value ≡ ready.value) }
        ensures request { IfOk result (λ p. p.request.value ≡ request.value) }
        ensures few { IfOk result (λ p. work_of_placing (world_of world.now) p ≤
            placing_for (length (world_of world.now).map.links) (asked request.value)) }
    {
        let stage = first_stage(alloc, world, &ready, &request)?;
        Ok(Placing {
            ready,
            request,
            stage,
        })
    }
}

impl Step for Placing {
    type Data = World;

    type Answer = Result<JobPlan, RouteError>;

    ghost IsOver = { λ world p. IsPlacingOn (world_of world) p };

    ghost answers = { λ world p given. IsPlaced (world_of world) p.ready.value
        (asked p.request.value) given };

    ghost work_left = { λ world p. work_of_placing (world_of world) p };

    ghost free_left = { λ world p. free_stages p.stage };

    fn step(
        self,
        alloc: Global,
        dataset: &World,
        budget: u32,
    ) -> Stepped<Placing, Result<JobPlan, RouteError>> {
        let Placing {
            ready,
            request,
            stage,
        } = self;
        match stage {
            PlacingStage::Cutting(cutting) => {
                let next = cut_more(alloc, dataset, &ready, &request, cutting, budget);
                stepped(ready, request, next)
            }
            PlacingStage::Moving { cut, nodes } => {
                let next = move_next(dataset, &ready, &request, cut, nodes, budget);
                stepped(ready, request, next)
            }
            PlacingStage::Placed { cut, nodes } => Stepped {
                spent: 0,
                turn: Turn::Done(plan_with(alloc, ready, &request, cut, nodes)),
            },
        }
    }
}

impl Task for Placing {
    type Data = World;

    type Answer = Result<JobPlan, RouteError>;

    ghost IsOver = { λ world p. IsPlacingOn (world_of world) p };

    ghost answers = { λ world p given. IsPlaced (world_of world) p.ready.value
        (asked p.request.value) given };

    ghost turns_left = { λ world budget p. work_of_placing (world_of world) p / budget };

    fn take_turn(
        self,
        alloc: Global,
        dataset: &World,
        budget: u32,
    ) -> Turn<Placing, Result<JobPlan, RouteError>> {
        turn_of_steps(alloc, dataset, self, budget)
    }
}

/// What a step comes to.
fn stepped(
    ready: Rc<Ready>,
    request: Rc<Request>,
    next: Result<PlacingStep, RouteError>,
) -> Stepped<Placing, Result<JobPlan, RouteError>>
    ensures exact { StepsTo ready request next result }
{
    match next {
        Ok(PlacingStep { spent, stage }) => Stepped {
            spent,
            turn: Turn::More(Placing {
                ready,
                request,
                stage,
            }),
        },
        Err(error) => Stepped {
            spent: 0,
            turn: Turn::Done(Err(error)),
        },
    }
}

/// The plan of a request whose waypoints are moved to these nodes, where these links are cut.
fn plan_with(
    alloc: Global,
    ready: Rc<Ready>,
    request: &Request,
    cut: Vec<bool>,
    nodes: Vec<u32>,
) -> Result<JobPlan, RouteError>
    ensures exact { MatchResult result (IsPlanWith ready.value request.now cut.items nodes.items)
        (λ e. e ≡ NoMemory) }
{
    let count = nodes.len();
    let rows = chosen(alloc, request.sources.as_slice(), count)?;
    let columns = chosen(alloc, request.destinations.as_slice(), count)?;
    Ok(JobPlan {
        limit: request.labels,
        nodes: Items::from_vec(nodes),
        cut,
        alternative: request.alternative,
        runs: request.runs,
        cost: request.cost,
        rows,
        columns,
        ready,
    })
}
