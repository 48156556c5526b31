//! Weights come to have the sums of a ride's turns.

ghost use Rattle.std.specs.Prelude.{◌≡◌, length, true};
ghost use Rattle.overpass_graph.specs.Maps.{roads_of};
ghost use Rattle.ride_bounds.specs.Customizing.{AreRideWeights, IsTaking};
ghost use Rattle.ride_bounds.specs.Hierarchies.{IsMapHierarchy};

use crate::hierarchy::MapHierarchy;
use cost_model::FactsOf;
use link_hierarchy::{Arc, Customization, Weights};
use overpass_graph::Map;

/// The turns with their prices, and the weights that come to have their sums.
pub struct Taking {
    pub(crate) priced: Vec<Arc>,
    pub(crate) made: Customization,
}

impl Drop for Taking {
    fn drop(self) {
        let Taking { priced: _, made: _ } = self;
    }
}

impl Taking {
    /// The weights take one more turn, or one step of what comes then; whether nothing was left to be
    /// done.
    pub(crate) fn go_on<F: FactsOf>(
        &mut self,
        hierarchy: &MapHierarchy,
        _facts: &F,
        _map: &Map,
    ) -> bool
        requires is { IsMapHierarchy (roads_of _map.now) hierarchy.now }
        requires on { IsTaking (roads_of _map.now) (F.links _facts.now).facts hierarchy.now
            self.old }
        ensures on { IsTaking (roads_of _map.now) (F.links _facts.now).facts hierarchy.now
            self.new }
        ensures all { result ≡ true → self.new.made.taken ≡ length self.new.priced.items }
        ensures over { result ≡ true → self.new.made.node ≡ hierarchy.now.topology.nodes }
    {
        let topology = &hierarchy.topology;
        if !self.made.has_all(topology, self.priced.as_slice()) {
            self.made.take(topology, self.priced.as_slice());
            return false;
        }
        if self.made.is_over(topology, self.priced.as_slice()) {
            return true;
        }
        self.made.step(topology, self.priced.as_slice());
        false
    }

    /// The weights.
    pub(crate) fn finish<F: FactsOf>(
        self,
        hierarchy: &MapHierarchy,
        _facts: &F,
        _map: &Map,
    ) -> Weights
        requires all { self.made.taken ≡ length self.priced.items }
        requires over { self.made.node ≡ hierarchy.now.topology.nodes }
        requires on { IsTaking (roads_of _map.now) (F.links _facts.now).facts hierarchy.now self }
        ensures are { AreRideWeights (roads_of _map.now) (F.links _facts.now).facts hierarchy.now
            result }
    {
        let Taking { priced, made } = self;
        made.finish(&hierarchy.topology, priced.as_slice())
    }
}
