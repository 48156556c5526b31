//! The weights of a map's hierarchy for a ride, made in steps.

ghost use Rattle.std.specs.Prelude.{◌≡◌, IfOk, length};
ghost use Rattle.item_list.specs.Turns.{Says};
ghost use Rattle.overpass_graph.specs.Maps.{roads_of};
ghost use Rattle.ride_bounds.specs.Customizing.{AreRideWeights, IsPricing, IsRideCustomization, IsTaking};
ghost use Rattle.ride_bounds.specs.Hierarchies.{IsMapHierarchy};

use crate::hierarchy::MapHierarchy;
use crate::pricing::Pricing;
use crate::taking::Taking;
use cost_model::FactsOf;
use item_list::Turn;
use link_hierarchy::Weights;
use overpass_graph::Map;
use std::alloc::{AllocError, Global};

/// The weights of a ride before their end. They borrow nothing: each step is given the hierarchy and
/// the facts again.
#[derive(Drop)]
pub enum RideCustomization {
    Pricing(Pricing),
    Taking(Taking),
}

impl RideCustomization {
    /// Weights of which nothing is made.
    pub fn new<F: FactsOf>(
        alloc: Global,
        _hierarchy: &MapHierarchy,
        _facts: &F,
        _map: &Map,
    ) -> RideCustomization
        ensures on { IsRideCustomization (roads_of _map.now) (F.links _facts.now).facts
            _hierarchy.now result }
    {
        RideCustomization::Pricing(Pricing {
            priced: Vec::new(alloc),
            next: 0,
        })
    }

    /// Does a little more of the work, or ends with the weights.
    pub fn step<F: FactsOf>(
        self,
        alloc: Global,
        hierarchy: &MapHierarchy,
        facts: &F,
        map: &Map,
    ) -> Result<Turn<RideCustomization, Weights>, AllocError>
        requires is { IsMapHierarchy (roads_of map.now) hierarchy.now }
        requires counted { (F.links facts.now).count ≡ length map.now.links }
        requires on { IsRideCustomization (roads_of map.now) (F.links facts.now).facts
            hierarchy.now self }
        ensures steps { IfOk result (Says
            (IsRideCustomization (roads_of map.now) (F.links facts.now).facts hierarchy.now)
            (AreRideWeights (roads_of map.now) (F.links facts.now).facts hierarchy.now)) }
    {
        match self {
            RideCustomization::Pricing(it) => price(it, alloc, hierarchy, facts, map),
            RideCustomization::Taking(it) => Ok(take(it, hierarchy, facts, map)),
        }
    }
}

/// Looks at one more turn, or at none where all were looked at.
fn price<F: FactsOf>(
    it: Pricing,
    alloc: Global,
    hierarchy: &MapHierarchy,
    facts: &F,
    map: &Map,
) -> Result<Turn<RideCustomization, Weights>, AllocError>
    requires is { IsMapHierarchy (roads_of map.now) hierarchy.now }
    requires counted { (F.links facts.now).count ≡ length map.now.links }
    requires on { IsPricing (roads_of map.now) (F.links facts.now).facts hierarchy.now it }
    ensures steps { IfOk result (Says
        (IsRideCustomization (roads_of map.now) (F.links facts.now).facts hierarchy.now)
        (AreRideWeights (roads_of map.now) (F.links facts.now).facts hierarchy.now)) }
{
    let mut it = it;
    if it.next == hierarchy.turns.len() {
        return Ok(Turn::More(RideCustomization::Taking(it.taken(alloc, hierarchy, facts, map)?)));
    }
    it.price(hierarchy, facts, map)?;
    Ok(Turn::More(RideCustomization::Pricing(it)))
}

/// The weights take one more turn, or one step of what comes then, or are there.
fn take<F: FactsOf>(
    it: Taking,
    hierarchy: &MapHierarchy,
    facts: &F,
    map: &Map,
) -> Turn<RideCustomization, Weights>
    requires is { IsMapHierarchy (roads_of map.now) hierarchy.now }
    requires on { IsTaking (roads_of map.now) (F.links facts.now).facts hierarchy.now it }
    ensures steps { Says
        (IsRideCustomization (roads_of map.now) (F.links facts.now).facts hierarchy.now)
        (AreRideWeights (roads_of map.now) (F.links facts.now).facts hierarchy.now) result }
{
    let mut it = it;
    if it.go_on(hierarchy, facts, map) {
        Turn::Done(it.finish(hierarchy, facts, map))
    } else {
        Turn::More(RideCustomization::Taking(it))
    }
}
