//! Nodes of the tables, by their places.

ghost use Rattle.std.specs.Prelude.{◌≡◌, ◌<◌, length, IfSome};
ghost use Rattle.geo_int.specs.Place.{Place};
ghost use Rattle.geo_int.specs.Spot.{place_of};
ghost use Rattle.map_tables.specs.Kept.{place_of_id, HoldsAt};

use crate::tables::Tables;
use geo_int::Spot;
use item_list::Tags;

impl Tables {
    /// How many nodes there are.
    pub fn nodes(&self) -> u32
        ensures value { result ≡ length self.now.draft.nodes }
    {
        self.nodes.len()
    }

    /// The id of a node.
    pub fn node_id(&self, node: u32) -> i64
        requires fits { node < length self.now.draft.nodes }
        ensures value { HoldsAt self.now.draft.nodes node (λ k. result ≡ k.id) }
    {
        self.nodes.id(node)
    }

    /// Where a node is.
    pub fn node_spot(&self, node: u32) -> Spot
        requires fits { node < length self.now.draft.nodes }
        ensures value { HoldsAt self.now.draft.nodes node (λ k. place_of result ≡ k.content) }
    {
        self.nodes.content(node).spot()
    }

    /// The tags of a node.
    pub fn node_tags(&self, node: u32) -> &Tags
        requires fits { node < length self.now.draft.nodes }
        ensures value { HoldsAt self.now.draft.nodes node (λ k. result.now ≡ k.tags) }
    {
        self.nodes.tags(node)
    }

    /// The node of an id.
    pub fn find_node(&self, id: i64) -> Option<u32>
        ensures value { result ≡ place_of_id id self.now.draft.nodes }
        ensures fits { IfSome result (λ node. node < length self.now.draft.nodes) }
    {
        self.nodes.find(id)
    }
}
