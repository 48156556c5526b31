//! One step on the way from a request to its plan.

ghost use Rattle.std.specs.Prelude.{◌≡◌, ◌⊎◌, ◌-◌, ◌*◌, ◌<◌, ◌≤◌, false, IfErr, IfOk, length, nat_eq};
ghost use Rattle.nogo_areas.specs.Cuttings.{IsCutting};
ghost use Rattle.route_engine.specs.Jobs.{IsWithin};
ghost use Rattle.route_engine.specs.Placings.{AreMoved, IsPlacingStage, PlacesOn, free_stages, moving, open_map_for, placing_for, placing_left};
ghost use Rattle.route_engine.specs.Settings.{cut_links};
ghost use Rattle.route_engine.specs.Waypoints.{IsMovedOn, RefusesWaypoint, waypoint_at};
ghost use Rattle.route_engine.specs.declared.placing_stage.PlacingStage.TheVariants as stages;
ghost use Rattle.route_http.specs.Seen.{asked};
ghost use Rattle.route_ready.specs.Fits.{FitsMap};
ghost use Rattle.route_ready.specs.World.{world_of};
ghost use Rattle.route_ready.specs.Worlds.{WorldValue};
ghost use Rattle.route_ready.specs.declared.error.RouteError.TheVariants.{NoMemory};
ghost use Rattle.route_ready.specs.declared.ready.Ready.{Ready as ReadyValue};

use crate::placing_stage::{PlacingStage, PlacingStep};
use crate::waypoints::waypoint_node;
use cost_model::Passages;
use nogo_areas::Cutting;
use route_http::Request;
use route_ready::{Ready, RouteError, World};
use std::alloc::{AllocError, Global};

/// What a waypoint counts as.
pub(crate) const MOVING: u32 = 500;

/// The stage in which nothing is done yet. Without circles no link is looked at.
pub(crate) fn first_stage(
    alloc: Global,
    world: &World,
    ready: &Ready,
    request: &Request,
) -> Result<PlacingStage, AllocError>
    requires within { IsWithin (asked request.now) }
    ensures stage { IfOk result (IsPlacingStage (world_of world.now) ready.now request.now) }
    ensures few { IfOk result (λ stage. placing_left (world_of world.now) request.now stage ≤
        placing_for (length (world_of world.now).map.links) (asked request.now)) }
{
    let circles = request.circles.as_slice();
    if circles.is_empty() {
        return Ok(PlacingStage::Moving {
            cut: Vec::new(alloc),
            nodes: Vec::new(alloc),
        });
    }
    let cutting = Cutting::new(alloc, circles)?;
    Ok(PlacingStage::Cutting(cutting))
}

/// Judges as many links more as the budget allows. Behind the last one waypoints are moved.
pub(crate) fn cut_more(
    alloc: Global,
    world: &World,
    ready: &Ready,
    request: &Request,
    cutting: Cutting,
    budget: u32,
) -> Result<PlacingStep, RouteError>
    requires within { IsWithin (asked request.now) }
    requires some { 1 ≤ budget }
    requires over { IsCutting (world_of world.now).map request.now.circles cutting }
    requires circles { false ≡ nat_eq (length request.now.circles) 0 }
    ensures on { IfOk result (PlacesOn (world_of world.now) ready.now request.now budget
        (stages.Cutting cutting)) }
    ensures cause { IfErr result (λ e. e ≡ NoMemory) }
{
    let mut cutting = cutting;
    let left = cutting.left(world.map());
    let spent = left.min(budget);
    cutting.more(world.map(), request.circles.as_slice(), spent)?;
    if spent < left {
        return Ok(PlacingStep {
            spent,
            stage: PlacingStage::Cutting(cutting),
        });
    }
    Ok(PlacingStep {
        spent,
        stage: PlacingStage::Moving {
            cut: cutting.into_cut(),
            nodes: Vec::new(alloc),
        },
    })
}

/// Moves the next waypoint to its node.
pub(crate) fn move_next(
    world: &World,
    ready: &Ready,
    request: &Request,
    cut: Vec<bool>,
    nodes: Vec<u32>,
    budget: u32,
) -> Result<PlacingStep, RouteError>
    requires fits { FitsMap (world_of world.now).map ready.now }
    requires within { IsWithin (asked request.now) }
    requires some { 1 ≤ budget }
    requires moved { AreMoved (world_of world.now) ready.now (asked request.now) cut.items
        nodes.items }
    requires there { length nodes.items < length (asked request.now).waypoints }
    ensures on { IfOk result (PlacesOn (world_of world.now) ready.now request.now budget
        (stages.Moving cut nodes)) }
    ensures cause { IfErr result (λ e. (e ≡ NoMemory) ⊎
        RefusesWaypoint (open_map_for (world_of world.now) ready.now (asked request.now))
        (asked request.now).waypoints e) }
{
    let number = nodes.len();
    match next_node(world, ready, request, cut.as_slice(), number) {
        Some(node) => {
            let mut nodes = nodes;
            nodes.push(node)?;
            Ok(PlacingStep {
                spent: MOVING.min(budget),
                stage: stage_with(request, cut, nodes),
            })
        }
        None => Err(RouteError::NotMapped {
            waypoint: number as u32,
        }),
    }
}

/// The stage in which these links are cut and the first waypoints have these nodes.
fn stage_with(request: &Request, cut: Vec<bool>, nodes: Vec<u32>) -> PlacingStage
    requires few { length nodes.items ≤ length (asked request.now).waypoints }
    ensures stage { (world : WorldValue) (ready : ReadyValue) →
        AreMoved world ready (asked request.now) cut.items nodes.items →
        IsPlacingStage world ready request.now result }
    ensures less { (world : WorldValue) → placing_left world request.now result ≡
        (length (asked request.now).waypoints - length nodes.items) * moving }
    ensures free { free_stages result ≡ 0 }
{
    if nodes.len() == request.waypoints.len() {
        PlacingStage::Placed { cut, nodes }
    } else {
        PlacingStage::Moving { cut, nodes }
    }
}

/// The node to which the waypoint of a number is moved, where these links are cut.
fn next_node(
    world: &World,
    ready: &Ready,
    request: &Request,
    cut: &[bool],
    number: usize,
) -> Option<u32>
    requires fits { FitsMap (world_of world.now).map ready.now }
    requires cut { cut.now ≡ cut_links (world_of world.now).map (asked request.now).circles }
    requires there { number < length (asked request.now).waypoints }
    ensures exact { IsMovedOn (open_map_for (world_of world.now) ready.now (asked request.now))
        (waypoint_at (asked request.now).waypoints number) result }
{
    let passages = Passages {
        facts: &*ready.bound,
        cut,
    };
    waypoint_node(world, &passages, request.waypoints.as_slice(), number)
}
