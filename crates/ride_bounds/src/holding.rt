//! The rows of a hierarchy come to hold the turns of a map.

ghost use Rattle.std.specs.Prelude.{◌≡◌, ◌<◌, IfOk, OnOk, length, true, false};
ghost use Rattle.overpass_graph.specs.Maps.{roads_of};
ghost use Rattle.ride_bounds.specs.Hierarchies.{IsEliminating, IsHolding};

use crate::eliminating::Eliminating;
use link_hierarchy::{Arc, Elimination, Rows};
use link_order::LinkOrder;
use overpass_graph::Map;
use std::alloc::{AllocError, Global};

/// The turns of a map, and the rows that hold the first of them.
pub struct Holding {
    pub(crate) order: LinkOrder,
    pub(crate) turns: Vec<Arc>,
    pub(crate) rows: Rows,
}

impl Drop for Holding {
    fn drop(self) {
        let Holding {
            order: _,
            turns: _,
            rows: _,
        } = self;
    }
}

impl Holding {
    /// Whether the rows hold all turns.
    pub(crate) fn has_all(&self, _map: &Map) -> bool
        requires on { IsHolding (roads_of _map.now) self.now }
        ensures all { result ≡ true → self.now.rows.taken ≡ length self.now.turns.items }
        ensures more { result ≡ false → self.now.rows.taken < length self.now.turns.items }
    {
        self.rows.has_all(self.turns.as_slice())
    }

    /// The rows take one more turn.
    pub(crate) fn take(&mut self, alloc: Global, _map: &Map) -> Result<(), AllocError>
        requires more { self.old.rows.taken < length self.old.turns.items }
        requires on { IsHolding (roads_of _map.now) self.old }
        ensures on { OnOk result (IsHolding (roads_of _map.now) self.new) }
    {
        self.rows.take(alloc, self.turns.as_slice())
    }

    /// The rows hold all turns: the links are eliminated.
    pub(crate) fn eliminated(self, alloc: Global, _map: &Map) -> Result<Eliminating, AllocError>
        requires all { self.rows.taken ≡ length self.turns.items }
        requires on { IsHolding (roads_of _map.now) self }
        ensures on { IfOk result (IsEliminating (roads_of _map.now)) }
    {
        let Holding { order, turns, rows } = self;
        let made = Elimination::new(alloc, rows, turns.as_slice())?;
        Ok(Eliminating {
            order,
            turns,
            made,
            counted: 0,
            edges: 0,
            triangles: 0,
        })
    }
}
