//! Where waypoints are moved.

ghost use Rattle.std.specs.Prelude.{◌≡◌, ◌<◌, ◌^◌, IfSome, length};
ghost use Rattle.route_ready.specs.World.{world_of};
ghost use Rattle.run_cases.specs.Numbers.{AreBelow};
ghost use Rattle.way_class.specs.Links.{links_of};

use crate::ready::inputs::{spot_of, spots_of};
use crate::told::outside;
use case_inputs::Case;
use cost_model::Passages;
use geo_int::Spot;
use item_list::{append_bytes, append_signed};
use overpass_graph::Map;
use route_engine::waypoint_nodes;
use route_ready::{World, line};
use std::alloc::{AllocError, Global};
use way_class::Bound;

/// The ids of the nodes to which the waypoints of a case are moved, or the line of the refusal.
pub(crate) fn nodes_told(
    alloc: Global,
    case: &Case,
    world: &World,
    bound: &Bound,
) -> Result<Vec<u8>, AllocError>
    requires counted { (links_of bound.now).count ≡ length (world_of world.now).map.links }
{
    let spots = spots_of(alloc, case.text(4))?;
    if spots.len() >= 1 << 32 {
        return outside(alloc);
    }
    moved(alloc, world, bound, spots.as_slice())
}

/// The ids of the nodes to which waypoints are moved.
fn moved(alloc: Global, world: &World, bound: &Bound, spots: &[Spot]) -> Result<Vec<u8>, AllocError>
    requires counted { (links_of bound.now).count ≡ length (world_of world.now).map.links }
    requires fits { length spots.now < 2 ^ 32 }
{
    let passages = Passages {
        facts: bound,
        cut: &[],
    };
    match waypoint_nodes(alloc, world, &passages, spots) {
        Ok(nodes) => ids(alloc, world.map(), nodes.as_slice()),
        Err(error) => line(alloc, &error, None),
    }
}

/// The ids of nodes, parted by spaces.
fn ids(alloc: Global, map: &Map, nodes: &[u32]) -> Result<Vec<u8>, AllocError>
    requires in_range { AreBelow (length map.now.nodes) nodes.now }
{
    let mut text = Vec::new(alloc);
    'nodes: for place in 0..nodes.len() {
        if place > 0 {
            append_bytes(&mut text, b" ")?;
        }
        append_signed(&mut text, map.node_id(nodes[place]))?;
    }
    Ok(text)
}

/// The id of the node to which the one waypoint of a case is moved, or that it is moved to none.
pub(crate) fn nearest_told(
    alloc: Global,
    case: &Case,
    world: &World,
    bound: &Bound,
) -> Result<Vec<u8>, AllocError>
    requires counted { (links_of bound.now).count ≡ length (world_of world.now).map.links }
{
    let passages = Passages {
        facts: bound,
        cut: &[],
    };
    match spot_of(case.text(4)) {
        Some(at) => id(alloc, world.map(), world.nearest(&passages, at)),
        None => outside(alloc),
    }
}

/// The id of a node, or that there is none.
fn id(alloc: Global, map: &Map, node: Option<u32>) -> Result<Vec<u8>, AllocError>
    requires in_range { IfSome node (λ n. n < length map.now.nodes) }
{
    let mut text = Vec::new(alloc);
    match node {
        Some(node) => append_signed(&mut text, map.node_id(node)),
        None => append_bytes(&mut text, b"none"),
    }?;
    Ok(text)
}
