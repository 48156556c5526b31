//! All steps in one call.

ghost use Rattle.std.specs.Prelude.{◌≡◌, IfOk, IfSome, length};
ghost use Rattle.overpass_graph.specs.Maps.{roads_of};
ghost use Rattle.ride_bounds.specs.Customizing.{AreRideWeights};
ghost use Rattle.ride_bounds.specs.Hierarchies.{IsMapHierarchy};

use crate::hierarchy::MapHierarchy;
use crate::map_elimination::MapElimination;
use crate::ride_customization::RideCustomization;
use cost_model::FactsOf;
use item_list::Turn;
use link_hierarchy::Weights;
use link_order::LinkOrder;
use overpass_graph::Map;
use std::alloc::{AllocError, Global};

/// The hierarchy of a map by so many steps; none where it would be too large, or takes more.
pub fn map_hierarchy(
    alloc: Global,
    map: &Map,
    order: LinkOrder,
    steps: u64,
) -> Result<Option<MapHierarchy>, AllocError>
    requires counted { length order.links ≡ length map.now.links }
    ensures is { IfOk result (λ made. IfSome made (IsMapHierarchy (roads_of map.now))) }
{
    let mut making = MapElimination::new(alloc, map, order);
    'steps: for _ in 0..steps {
        match making.step(alloc, map)? {
            Turn::More(next) => making = next,
            Turn::Done(made) => return Ok(made),
        }
    }
    Ok(None)
}

/// The weights of a ride by so many steps; none where it takes more.
pub fn ride_weights<F: FactsOf>(
    alloc: Global,
    map: &Map,
    hierarchy: &MapHierarchy,
    facts: &F,
    steps: u64,
) -> Result<Option<Weights>, AllocError>
    requires is { IsMapHierarchy (roads_of map.now) hierarchy.now }
    requires counted { (F.links facts.now).count ≡ length map.now.links }
    ensures are { IfOk result (λ made. IfSome made
        (AreRideWeights (roads_of map.now) (F.links facts.now).facts hierarchy.now)) }
{
    let mut making = RideCustomization::new(alloc, hierarchy, facts, map);
    'steps: for _ in 0..steps {
        match making.step(alloc, hierarchy, facts, map)? {
            Turn::More(next) => making = next,
            Turn::Done(made) => return Ok(Some(made)),
        }
    }
    Ok(None)
}
