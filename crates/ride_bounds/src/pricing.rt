//! The turns of a map get the prices of a ride.

ghost use Rattle.std.specs.Prelude.{◌≡◌, ◌<◌, IfOk, OnOk, length, true, false};
ghost use Rattle.overpass_graph.specs.Maps.{roads_of};
ghost use Rattle.ride_bounds.specs.Customizing.{IsPricing, IsTaking};
ghost use Rattle.ride_bounds.specs.Hierarchies.{IsMapHierarchy};

use crate::entry::{least_entry, weight};
use crate::hierarchy::MapHierarchy;
use crate::taking::Taking;
use cost_model::{FactsOf, is_passable};
use link_hierarchy::{Arc, Customization};
use overpass_graph::Map;
use std::alloc::{AllocError, Global};

/// The first turns with their prices, but those into links that are closed.
pub struct Pricing {
    pub(crate) priced: Vec<Arc>,
    /// How many turns were looked at.
    pub(crate) next: usize,
}

impl Drop for Pricing {
    fn drop(self) {
        let Pricing { priced: _, next: _ } = self;
    }
}

impl Pricing {
    /// Looks at one more turn.
    pub(crate) fn price<F: FactsOf>(
        &mut self,
        hierarchy: &MapHierarchy,
        facts: &F,
        _map: &Map,
    ) -> Result<(), AllocError>
        requires is { IsMapHierarchy (roads_of _map.now) hierarchy.now }
        requires counted { (F.links facts.now).count ≡ length _map.now.links }
        requires more { self.old.next < length hierarchy.now.turns.items }
        requires on { IsPricing (roads_of _map.now) (F.links facts.now).facts hierarchy.now
            self.old }
        ensures on { OnOk result
            (IsPricing (roads_of _map.now) (F.links facts.now).facts hierarchy.now self.new) }
    {
        let turn = hierarchy.turns[self.next];
        let entered = facts.facts(hierarchy.order.link(turn.to));
        if !is_passable(&entered) {
            self.next += 1;
            return Ok(());
        }
        let last = facts.facts(hierarchy.order.link(turn.from));
        let price = weight(least_entry(&last, &entered));
        self.priced.push(Arc {
            price,
            from: turn.from,
            to: turn.to,
        })?;
        self.next += 1;
        Ok(())
    }

    /// All turns have their prices: weights come to have their sums.
    pub(crate) fn taken<F: FactsOf>(
        self,
        alloc: Global,
        hierarchy: &MapHierarchy,
        _facts: &F,
        _map: &Map,
    ) -> Result<Taking, AllocError>
        requires is { IsMapHierarchy (roads_of _map.now) hierarchy.now }
        requires all { self.next ≡ length hierarchy.now.turns.items }
        requires on { IsPricing (roads_of _map.now) (F.links _facts.now).facts hierarchy.now self }
        ensures on { IfOk result
            (IsTaking (roads_of _map.now) (F.links _facts.now).facts hierarchy.now) }
    {
        let Pricing { priced, next: _ } = self;
        let made = Customization::new(alloc, &hierarchy.topology, priced.as_slice())?;
        Ok(Taking { priced, made })
    }
}
