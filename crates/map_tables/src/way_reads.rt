//! Ways of the tables, by their places.

ghost use Rattle.std.specs.Prelude.{◌≡◌, ◌<◌, length, IfSome};
ghost use Rattle.map_tables.specs.Kept.{place_of_id, HoldsAt};
ghost use Rattle.map_tables.specs.Draft.{segments_in};

use crate::tables::Tables;
use item_list::Tags;

impl Tables {
    /// How many ways there are.
    pub fn ways(&self) -> u32
        ensures value { result ≡ length self.now.draft.ways }
    {
        self.ways.len()
    }

    /// How many segments all ways have.
    pub fn segments(&self) -> u32
        ensures value { result ≡ segments_in self.now.draft.ways }
    {
        self.ways.total()
    }

    /// The id of a way.
    pub fn way_id(&self, way: u32) -> i64
        requires fits { way < length self.now.draft.ways }
        ensures value { HoldsAt self.now.draft.ways way (λ k. result ≡ k.id) }
    {
        self.ways.id(way)
    }

    /// The ids of a way's nodes.
    pub fn way_nodes(&self, way: u32) -> &[i64]
        requires fits { way < length self.now.draft.ways }
        ensures value { HoldsAt self.now.draft.ways way (λ k. result.now ≡ k.content) }
    {
        self.ways.content(way).as_slice()
    }

    /// The tags of a way.
    pub fn way_tags(&self, way: u32) -> &Tags
        requires fits { way < length self.now.draft.ways }
        ensures value { HoldsAt self.now.draft.ways way (λ k. result.now ≡ k.tags) }
    {
        self.ways.tags(way)
    }

    /// The way of an id.
    pub fn find_way(&self, id: i64) -> Option<u32>
        ensures value { result ≡ place_of_id id self.now.draft.ways }
        ensures fits { IfSome result (λ way. way < length self.now.draft.ways) }
    {
        self.ways.find(id)
    }
}
