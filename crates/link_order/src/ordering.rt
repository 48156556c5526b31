//! The order of a map's links, worked out in steps.

ghost use Rattle.std.specs.Prelude.{◌≡◌, ◌<◌, IfOk, OnOk, false, length};
ghost use Rattle.item_list.specs.Turns.{Says};
ghost use Rattle.link_order.specs.Orderings.{IsOrderOf, OrdersOn, left_of, links_of, most_left};

use crate::dissection::Dissection;
use crate::link_order::LinkOrder;
use crate::placing::Placing;
use item_list::Turn;
use overpass_graph::Map;
use std::alloc::{AllocError, Global};

/// How much a step looks at: nodes, and links or arcs that leave them.
const WORK: u32 = 16384;

/// An ordering of the links of a map before its end. It borrows nothing: each step is given the map
/// again. Over another map the order is of no use, but it is one.
pub struct Ordering {
    placing: Placing,
    dissection: Dissection,
    left: u32,
}

impl Drop for Ordering {
    fn drop(self) {
        let Ordering {
            placing: _,
            dissection: _,
            left: _,
        } = self;
    }
}

impl Ordering {
    /// An ordering of a map's links, of which nothing is done.
    pub fn new(alloc: Global, map: &Map) -> Result<Ordering, AllocError>
        ensures links { IfOk result (λ ordering. links_of ordering ≡ length map.now.links) }
        ensures left { IfOk result (λ ordering.
            left_of ordering ≡ most_left (length map.now.links)) }
    {
        Ok(Ordering {
            placing: Placing::new(alloc, map.links())?,
            dissection: Dissection::new(alloc, map)?,
            left: map.links() / 32 + 64,
        })
    }

    /// Does a little more of the work, or ends with the order. Where the steps are used up, links that
    /// have no place yet take what is left.
    pub fn step(self, alloc: Global, map: &Map) -> Result<Turn<Ordering, LinkOrder>, AllocError>
        ensures steps { IfOk result (Says (OrdersOn self) (IsOrderOf (links_of self))) }
    {
        let mut ordering = self;
        if ordering.is_over() {
            return Ok(Turn::Done(ordering.into_order()));
        }
        ordering.advance(alloc, map)?;
        Ok(Turn::More(ordering))
    }

    /// Does all that is left.
    pub fn finish(self, alloc: Global, map: &Map) -> Result<LinkOrder, AllocError>
        ensures exact { IfOk result (IsOrderOf (links_of self)) }
    {
        let mut ordering = self;
        'steps: while !ordering.is_over() {
            ordering.advance(alloc, map)?;
        }
        Ok(ordering.into_order())
    }

    /// Whether nothing is left to be done.
    fn is_over(&self) -> bool
        ensures some { result ≡ false → 0 < left_of self.now }
    {
        self.left == 0 || self.dissection.is_over()
    }

    /// The order as it stands.
    fn into_order(self) -> LinkOrder
        ensures exact { IsOrderOf (links_of self) result }
    {
        let Ordering {
            placing,
            dissection,
            left: _,
        } = self;
        let _ = dissection;
        placing.into_order()
    }

    /// Does a little more of the work.
    fn advance(&mut self, alloc: Global, map: &Map) -> Result<(), AllocError>
        requires some { 0 < left_of self.old }
        ensures on { OnOk result (OrdersOn self.old self.new) }
    {
        self.left -= 1;
        let mut work = 0u32;
        'pieces: for piece in 0..WORK {
            let _ = piece;
            let looked = self.dissection.piece(alloc, map, &mut self.placing)?;
            work = work.saturating_add(looked);
            if work >= WORK {
                return Ok(());
            }
        }
        Ok(())
    }
}
