//! The places of the links that arrive at a node.

ghost use Rattle.std.specs.Prelude.{◌≡◌, ◌<◌, ◌≤◌, ◌⊎◌, IfOk, length};
ghost use Rattle.overpass_graph.specs.Maps.{roads_of};
ghost use Rattle.ride_bounds.specs.Bounds.{IsNext, targets_of};

use link_order::LinkOrder;
use overpass_graph::{Map, twin};
use std::alloc::{AllocError, Global};

/// What stands behind all places.
const BEHIND: u32 = 0xffff_ffff;

/// The places of the links that arrive at a node, ascending.
pub(crate) fn targets(
    alloc: Global,
    map: &Map,
    order: &LinkOrder,
    target: u32,
) -> Result<Vec<u32>, AllocError>
    requires counted { length order.now.links ≡ length map.now.links }
    requires in_range { target < length map.now.nodes }
    ensures value { IfOk result (λ made.
        made.items ≡ targets_of order.now (roads_of map.now) target) }
{
    let links = map.links();
    let mut made: Vec<u32> = Vec::new(alloc);
    let mut from = 0;
    let mut next = next_place(map, order, target, 0);
    'targets: while next < links {
        made.push(next)?;
        from = next + 1;
        next = next_place(map, order, target, from);
    }
    let _ = from;
    Ok(made)
}

/// The least place from one on of a link that arrives at a node, or what stands behind all.
fn next_place(map: &Map, order: &LinkOrder, target: u32, from: u32) -> u32
    requires counted { length order.now.links ≡ length map.now.links }
    requires in_range { target < length map.now.nodes }
    ensures value { IsNext (roads_of map.now) order.now target from result }
{
    let _links = map.links();
    let _places = order.len();
    let leaving = map.out_links(target);
    let mut next = BEHIND;
    'links: for number in 0..leaving.len() {
        next = lower(next, from, order.place(twin(leaving[number])));
    }
    next
}

/// A place, where it is from one on and before the next one; else that.
fn lower(next: u32, from: u32, place: u32) -> u32
    ensures at_most { result ≤ next }
    ensures low { from ≤ place → result ≤ place }
    ensures one { (result ≡ next) ⊎ ((result ≡ place) × (from ≤ place)) }
{
    if from <= place && place < next {
        place
    } else {
        next
    }
}
