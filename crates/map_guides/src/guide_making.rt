//! The guide of a profile, made in spells.

ghost use Rattle.std.specs.Prelude.{◌≡◌, IfOk, length};
ghost use Rattle.item_list.specs.Turns.{Says};
ghost use Rattle.map_guides.specs.Guides.{IsGuideMaking, IsGuideOf};
ghost use Rattle.overpass_graph.specs.Maps.{roads_of};
ghost use Rattle.ride_bounds.specs.Customizing.{AreRideWeights, IsRideCustomization};
ghost use Rattle.ride_bounds.specs.Hierarchies.{IsMapHierarchy};
ghost use Rattle.route_ready.specs.Fits.{FitsMap};
ghost use Rattle.way_class.specs.declared.bound.Bound.{Bound as TheBound};

use cost_model::FactsOf;
use item_list::Turn;
use link_hierarchy::Weights;
use overpass_graph::Map;
use ride_bounds::{Guide, MapHierarchy, RideCustomization};
use route_ready::Ready;
use std::alloc::{AllocError, Global};
use std::rc::Rc;
use way_class::Bound;

/// How many steps of a customization a spell does.
const STEPS: u32 = 4096;

/// The guide of a profile that is ready, before its end. The hierarchy of the map and the facts of
/// its links are shared; each spell is given the map again.
pub struct GuideMaking {
    hierarchy: Rc<MapHierarchy>,
    bound: Rc<Bound>,
    weights: RideCustomization,
}

impl Drop for GuideMaking {
    fn drop(self) {
        let GuideMaking {
            hierarchy: _,
            bound: _,
            weights: _,
        } = self;
    }
}

impl GuideMaking {
    /// A guide of which nothing is made, by the facts of a profile that is ready for the map.
    pub fn new(
        alloc: Global,
        hierarchy: &Rc<MapHierarchy>,
        ready: &Ready,
        map: &Map,
    ) -> Result<GuideMaking, AllocError>
        requires is { IsMapHierarchy (roads_of map.now) hierarchy.now.value }
        requires fits { FitsMap map.now ready.now }
        ensures on { IfOk result (IsGuideMaking map.now ready.now.bound.value) }
    {
        let hierarchy = hierarchy.clone()?;
        let bound = ready.bound.clone()?;
        let weights = RideCustomization::new(alloc, &*hierarchy, &*bound, map);
        Ok(GuideMaking {
            hierarchy,
            bound,
            weights,
        })
    }

    /// Goes on for a spell, or ends with the guide.
    pub fn go_on(self, alloc: Global, map: &Map) -> Result<Turn<GuideMaking, Guide>, AllocError>
        requires on { (bound : TheBound) × IsGuideMaking map.now bound self }
        ensures steps { (bound : TheBound) → IsGuideMaking map.now bound self →
            IfOk result (Says (IsGuideMaking map.now bound) (IsGuideOf map.now bound)) }
    {
        let GuideMaking {
            hierarchy,
            bound,
            weights,
        } = self;
        match customized(weights, alloc, &*hierarchy, &*bound, map)? {
            Turn::More(weights) => Ok(Turn::More(GuideMaking {
                hierarchy,
                bound,
                weights,
            })),
            Turn::Done(weights) => Ok(Turn::Done(Guide::new(hierarchy, weights))),
        }
    }
}

/// A spell of a customization.
fn customized<F: FactsOf>(
    it: RideCustomization,
    alloc: Global,
    hierarchy: &MapHierarchy,
    facts: &F,
    map: &Map,
) -> Result<Turn<RideCustomization, Weights>, AllocError>
    requires is { IsMapHierarchy (roads_of map.now) hierarchy.now }
    requires counted { (F.links facts.now).count ≡ length map.now.links }
    requires on { IsRideCustomization (roads_of map.now) (F.links facts.now).facts hierarchy.now
        it }
    ensures steps { IfOk result (Says
        (IsRideCustomization (roads_of map.now) (F.links facts.now).facts hierarchy.now)
        (AreRideWeights (roads_of map.now) (F.links facts.now).facts hierarchy.now)) }
{
    let mut weights = it;
    'steps: for _ in 0..STEPS {
        match weights.step(alloc, hierarchy, facts, map)? {
            Turn::More(next) => weights = next,
            Turn::Done(end) => return Ok(Turn::Done(end)),
        }
    }
    Ok(Turn::More(weights))
}
