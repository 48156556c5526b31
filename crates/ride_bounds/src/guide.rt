//! A hierarchy with the weights of a ride, as what bounds its searches.

ghost use Rattle.std.specs.Prelude.{ℕ, ◌≡◌, IfOk};
ghost use Rattle.overpass_graph.specs.Maps.{roads_of};
ghost use Rattle.link_hierarchy.specs.Potentials.{HasRoom};
ghost use Rattle.ride_bounds.specs.Bounds.{IsLinkBound};
ghost use Rattle.ride_bounds.specs.Guides.{IsGuide, low_by};

use crate::hierarchy::MapHierarchy;
use crate::leg_bound::LegBound;
use cost_model::TerrainOf;
use link_hierarchy::Weights;
use std::alloc::{AllocError, Global};
use std::cell::Cell;
use std::rc::Rc;

/// What bounds the searches of a ride: the hierarchy of its map, which rides share, with the weights
/// of what its links cost.
pub struct Guide {
    pub(crate) hierarchy: Rc<MapHierarchy>,
    pub(crate) weights: Weights,
    /// The memory of a search that ended, for the next one.
    spare: Cell<Option<LegBound>>,
}

impl Drop for Guide {
    fn drop(self) {
        let Guide {
            hierarchy: _,
            weights: _,
            spare: _,
        } = self;
    }
}

impl Guide {
    /// A guide by a hierarchy and weights over it.
    pub fn new(hierarchy: Rc<MapHierarchy>, weights: Weights) -> Guide
        ensures hierarchy { result.hierarchy ≡ hierarchy }
        ensures weights { result.weights ≡ weights }
    {
        Guide {
            hierarchy,
            weights,
            spare: Cell::new(None),
        }
    }

    /// Memory for the bounds of a search: that of one that ended, where there is some.
    pub fn lend(&self, alloc: Global) -> Result<LegBound, AllocError>
        ensures room { IfOk result (λ bound.
            HasRoom self.now.hierarchy.value.topology bound.found) }
    {
        match self.spare.take() {
            Some(bound) => self.checked(alloc, bound),
            None => LegBound::new(alloc, &self.hierarchy),
        }
    }

    /// This memory, where there is enough of it, else other.
    fn checked(&self, alloc: Global, bound: LegBound) -> Result<LegBound, AllocError>
        ensures room { IfOk result (λ bound.
            HasRoom self.now.hierarchy.value.topology bound.found) }
    {
        if bound.found.has_room(&self.hierarchy.topology) {
            return Ok(bound);
        }
        LegBound::new(alloc, &self.hierarchy)
    }

    /// Takes the memory of a search that ended, for the next one.
    pub fn give_back(&self, bound: LegBound) {
        self.spare.set(Some(bound));
    }

    /// What it tells is a lower bound, whatever the target.
    pub fn is_lawful<G: TerrainOf>(&self, _terrain: &G)
        requires fits { IsGuide (G.terrain _terrain.now) self.now }
        ensures lawful { (target : ℕ) → let terrain = G.terrain _terrain.now in
            IsLinkBound (roads_of terrain.map) terrain.links.facts target
            (low_by terrain self.now target) }
    {
        let hierarchy = &*self.hierarchy;
        let _nodes = hierarchy.topology.nodes();
        let _places = hierarchy.order.len();
    }
}
