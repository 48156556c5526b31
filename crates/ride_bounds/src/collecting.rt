//! The turns of a map are collected.

ghost use Rattle.std.specs.Prelude.{◌≡◌, ◌<◌, IfOk, OnOk, length};
ghost use Rattle.overpass_graph.specs.Maps.{roads_of};
ghost use Rattle.ride_bounds.specs.Hierarchies.{IsCollecting, IsHolding};

use crate::holding::Holding;
use link_hierarchy::{Arc, Rows};
use link_order::LinkOrder;
use overpass_graph::Map;
use std::alloc::{AllocError, Global};

/// The turns from the links of the first places, as arcs at no price.
pub struct Collecting {
    pub(crate) order: LinkOrder,
    pub(crate) turns: Vec<Arc>,
    /// The place of the link whose turns come next.
    pub(crate) place: u32,
    /// How many of the links that leave its end were looked at.
    pub(crate) next: usize,
}

impl Drop for Collecting {
    fn drop(self) {
        let Collecting {
            order: _,
            turns: _,
            place: _,
            next: _,
        } = self;
    }
}

impl Collecting {
    /// Looks at one more pair of links, or goes on to the next link.
    pub(crate) fn look(&mut self, map: &Map) -> Result<(), AllocError>
        requires more { self.old.place < length map.now.links }
        requires on { IsCollecting (roads_of map.now) self.old }
        ensures on { OnOk result (IsCollecting (roads_of map.now) self.new) }
    {
        let _links = map.links();
        let first = self.order.link(self.place);
        let ends = map.link(first);
        let leaving = map.out_links(ends.to);
        if self.next >= leaving.len() {
            self.place += 1;
            self.next = 0;
            return Ok(());
        }
        let second = leaving[self.next];
        if map.link(second).to == ends.from {
            self.next += 1;
            return Ok(());
        }
        let to = self.order.place(second);
        self.turns.push(Arc {
            price: 0,
            from: self.place,
            to,
        })?;
        self.next += 1;
        Ok(())
    }

    /// All turns are collected: the rows of a hierarchy come to hold them.
    pub(crate) fn held(self, alloc: Global, map: &Map) -> Result<Holding, AllocError>
        requires all { self.place ≡ length map.now.links }
        requires on { IsCollecting (roads_of map.now) self }
        ensures on { IfOk result (IsHolding (roads_of map.now)) }
    {
        let _links = map.links();
        let Collecting {
            order,
            turns,
            place,
            next: _,
        } = self;
        let rows = Rows::new(alloc, place, turns.as_slice())?;
        Ok(Holding { order, turns, rows })
    }
}
