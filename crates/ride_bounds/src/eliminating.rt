//! The links of a map are eliminated.

ghost use Rattle.std.specs.Prelude.{◌≡◌, ◌<◌, IfOk, OnOk, length, true, false};
ghost use Rattle.overpass_graph.specs.Maps.{roads_of};
ghost use Rattle.ride_bounds.specs.Hierarchies.{IsEliminating, IsMapHierarchy};

use crate::hierarchy::MapHierarchy;
use link_hierarchy::{Arc, Elimination};
use link_order::LinkOrder;
use overpass_graph::Map;
use std::alloc::{AllocError, Global};

/// How many edges a link may have.
const MOST_EDGES: u64 = 40;

/// How many pairs of a tail and a head may stand above a link.
const MOST_TRIANGLES: u64 = 3_000;

/// The turns of a map, and the elimination of its first links.
pub struct Eliminating {
    pub(crate) order: LinkOrder,
    pub(crate) turns: Vec<Arc>,
    pub(crate) made: Elimination,
    /// How many links the counts are of.
    pub(crate) counted: u32,
    /// How many edges these have.
    pub(crate) edges: u64,
    /// How many pairs of a tail and a head stand above them.
    pub(crate) triangles: u64,
}

impl Drop for Eliminating {
    fn drop(self) {
        let Eliminating {
            order: _,
            turns: _,
            made: _,
            counted: _,
            edges: _,
            triangles: _,
        } = self;
    }
}

impl Eliminating {
    /// Whether all links are eliminated.
    pub(crate) fn is_over(&self, _map: &Map) -> bool
        requires on { IsEliminating (roads_of _map.now) self.now }
        ensures over { result ≡ true → self.now.made.node ≡ self.now.made.rows.nodes }
        ensures stays { result ≡ false → self.now.made.node < self.now.made.rows.nodes }
    {
        self.made.is_over(self.turns.as_slice())
    }

    /// One step of the elimination, and whether there aren't too many edges and triangles yet.
    pub(crate) fn go_on(&mut self, alloc: Global, map: &Map) -> Result<bool, AllocError>
        requires more { self.old.made.node < self.old.made.rows.nodes }
        requires on { IsEliminating (roads_of map.now) self.old }
        ensures on { OnOk result (IsEliminating (roads_of map.now) self.new) }
    {
        self.count(map);
        self.made.step(alloc, self.turns.as_slice())?;
        let links = map.links() as u64;
        Ok(self.edges <= links * MOST_EDGES && self.triangles <= links * MOST_TRIANGLES)
    }

    /// Counts what stands above the link that is eliminated now, once.
    fn count(&mut self, _map: &Map)
        requires more { self.old.made.node < self.old.made.rows.nodes }
        requires on { IsEliminating (roads_of _map.now) self.old }
        ensures on { IsEliminating (roads_of _map.now) self.new }
        ensures same { self.new.made ≡ self.old.made }
    {
        if self.made.node() < self.counted {
            return;
        }
        let tails = self.made.tails(self.turns.as_slice()) as u64;
        let heads = self.made.heads(self.turns.as_slice()) as u64;
        self.counted = self.made.node().saturating_add(1);
        self.edges = self.edges.saturating_add(tails.saturating_add(heads));
        self.triangles = self.triangles.saturating_add(tails.saturating_mul(heads));
    }

    /// All links are eliminated: the hierarchy of the map.
    pub(crate) fn finish(self, _map: &Map) -> MapHierarchy
        requires over { self.made.node ≡ self.made.rows.nodes }
        requires on { IsEliminating (roads_of _map.now) self }
        ensures is { IsMapHierarchy (roads_of _map.now) result }
    {
        let Eliminating {
            order,
            turns,
            made,
            counted: _,
            edges: _,
            triangles: _,
        } = self;
        let topology = made.finish(turns.as_slice());
        MapHierarchy {
            order,
            turns,
            topology,
        }
    }
}
