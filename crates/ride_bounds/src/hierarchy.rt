//! The hierarchy of a map's links.

use link_hierarchy::{Arc, Topology};
use link_order::LinkOrder;

/// The hierarchy of a map's links: their order, the turns between their places, and what leads where.
pub struct MapHierarchy {
    pub(crate) order: LinkOrder,
    pub(crate) turns: Vec<Arc>,
    pub(crate) topology: Topology,
}

impl Drop for MapHierarchy {
    fn drop(self) {
        let MapHierarchy {
            order: _,
            turns: _,
            topology: _,
        } = self;
    }
}

impl MapHierarchy {
    /// How many turns there are.
    pub fn turns(&self) -> usize {
        self.turns.len()
    }
}
