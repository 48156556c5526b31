//! Trees and chains of degree two leave a map, so that its junctions are left.

ghost use Rattle.std.specs.Prelude.{◌≡◌, length};

use crate::lists::{NONE, at, filled, put};
use crate::placing::Placing;
use overpass_graph::{Map, twin};
use std::alloc::{AllocError, Global};

/// The junctions are joined by chains. A chain begins with a link at either end.
pub(crate) struct Chains {
    /// For the first link of a chain the one at the chain's other end; none where that is its way back.
    backs: Vec<u32>,
    /// How many of the links that leave a node have got their places.
    lost: Vec<u32>,
    /// Nodes that have come to degree two or less.
    waiting: Vec<u32>,
    /// The next node that is looked at when none waits.
    next: u32,
}

impl Drop for Chains {
    fn drop(self) {
        let Chains {
            backs: _,
            lost: _,
            waiting: _,
            next: _,
        } = self;
    }
}

impl Chains {
    /// Each link is a chain.
    pub(crate) fn new(alloc: Global, map: &Map) -> Result<Chains, AllocError> {
        Ok(Chains {
            backs: filled(alloc, NONE, map.links())?,
            lost: filled(alloc, 0, map.nodes())?,
            waiting: Vec::new(alloc),
            next: 0,
        })
    }

    /// The first link at the other end of a chain.
    pub(crate) fn back(&self, link: u32) -> u32 {
        let back = at(&self.backs, link, NONE);
        if back == NONE { twin(link) } else { back }
    }

    /// How many chains are left at a node.
    pub(crate) fn degree(&self, map: &Map, node: u32) -> u32 {
        if node >= map.nodes() {
            return 0;
        }
        let all = map.out_links(node).len();
        let lost = at(&self.lost, node, 0) as usize;
        if all > lost + 2 {
            3
        } else {
            all.saturating_sub(lost) as u32
        }
    }

    /// The next node, or none where all were looked at.
    pub(crate) fn take(&mut self, map: &Map) -> Option<u32> {
        if let Some(node) = self.waiting.pop() {
            return Some(node);
        }
        if self.next >= map.nodes() {
            return None;
        }
        self.next += 1;
        Some(self.next - 1)
    }

    /// A node of degree one or two is left out: the links that leave it get their places, and where
    /// they are two, the chains of which they are ends become one. How many links were looked at.
    pub(crate) fn leave_out(
        &mut self,
        map: &Map,
        placing: &mut Placing,
        node: u32,
    ) -> Result<u32, AllocError>
        ensures counted { length placing.new.order.links ≡ length placing.old.order.links }
    {
        if self.degree(map, node) > 2 {
            return Ok(1);
        }
        let (first, second, looked) = ends(map, placing, node);
        if first == NONE {
            return Ok(looked);
        }
        let other = self.back(first);
        if second == NONE {
            placing.put_low(other);
            placing.put_low(first);
            self.lose(map, other)?;
            return Ok(looked);
        }
        let another = self.back(second);
        put(&mut self.backs, other, another);
        put(&mut self.backs, another, other);
        placing.put_low(first);
        placing.put_low(second);
        Ok(looked)
    }

    /// The node that a link leaves has one chain less.
    fn lose(&mut self, map: &Map, link: u32) -> Result<(), AllocError> {
        if link >= map.links() {
            return Ok(());
        }
        let node = map.link(link).from;
        let lost = at(&self.lost, node, 0).saturating_add(1);
        put(&mut self.lost, node, lost);
        if self.degree(map, node) <= 2 {
            self.waiting.push(node)?;
        }
        Ok(())
    }
}

/// The first and the last link that leave a node and wait, and how many links were looked at.
fn ends(map: &Map, placing: &Placing, node: u32) -> (u32, u32, u32) {
    let (mut first, mut last, mut looked) = (NONE, NONE, 1u32);
    if node >= map.nodes() {
        return (first, last, looked);
    }
    'links: for link in map.out_links(node) {
        looked = looked.saturating_add(1);
        if placing.waits(*link) {
            if first == NONE {
                first = *link;
            } else {
                last = *link;
            }
        }
    }
    (first, last, looked)
}
