//! Nodes that are drawn by a number.

ghost use Rattle.std.specs.Prelude.{◌<◌, IfSome, length};

use cost_model::{FactsOf, is_passable};
use overpass_graph::Map;
use way_class::Bound;

/// Numbers made from the one before.
#[derive(Drop)]
pub(crate) struct Draws {
    state: u64,
}

impl Draws {
    /// The numbers made from this one.
    pub(crate) fn new(seed: u64) -> Draws {
        Draws { state: seed }
    }

    /// The next number.
    fn next(&mut self) -> u32 {
        self.state = self
            .state
            .wrapping_mul(6364136223846793005)
            .wrapping_add(1442695040888963407);
        (self.state >> 32) as u32
    }

    /// The next node that an open link leaves, from a drawn one on; none where no node has one.
    pub(crate) fn node(&mut self, map: &Map, bound: &Bound) -> Option<u32>
        ensures node { IfSome result (λ node. node < length map.now.nodes) }
    {
        let nodes = map.nodes();
        if nodes == 0 {
            return None;
        }
        let first = self.next();
        'nodes: for step in 0..nodes {
            let node = first.wrapping_add(step) % nodes;
            if has_open_link(map, bound, node) {
                return Some(node);
            }
        }
        None
    }
}

/// Whether a link that a bound profile permits leaves a node.
fn has_open_link(map: &Map, bound: &Bound, node: u32) -> bool
    requires node { node < length map.now.nodes }
{
    'links: for &link in map.out_links(node) {
        if link < bound.count() && is_passable(&bound.facts(link)) {
            return true;
        }
    }
    false
}
