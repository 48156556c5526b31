//! The map of a text.

ghost use Rattle.std.specs.Prelude.{◌≡◌, ◌<◌, length};
ghost use Rattle.geo_int.specs.Spot.{place_of};
ghost use Rattle.map_tables.specs.Kept.{place_of_id};
ghost use Rattle.overpass_graph.specs.Maps.{IsMap, forbids_of, link_of, node_at, roads_of, way_at};
ghost use Rattle.overpass_graph.specs.Names.{FindsLink};
ghost use Rattle.overpass_graph.specs.Roads.{out_links};

use crate::link::Link;
use crate::names::find;
use crate::order::NodeOrder;
use crate::pairs::Links;
use crate::turns::Turns;
use geo_int::Spot;
use item_list::Tags;
use map_tables::Tables;
use std::marker::Model;

/// The map of a text: nodes by ascending id, ways in the order of the text, links and turn
/// restrictions.
pub struct Map {
    pub(crate) tables: Tables,
    pub(crate) order: NodeOrder,
    pub(crate) links: Links,
    pub(crate) turns: Turns,
}

impl Drop for Map {
    fn drop(self) {
        let Map {
            tables: _,
            order: _,
            links: _,
            turns: _,
        } = self;
    }
}

impl Model for Map {
    ghost use Rattle.overpass_graph.specs.Made.{IsMade, map_value};
    ghost use Rattle.overpass_graph.specs.Maps.{MapValue};

    ghost Value = { MapValue };

    ghost view = { λ m. map_value m.tables.draft.nodes m.tables.draft.ways m.order.places.items
        m.links m.turns };

    ghost invariant = { λ m.
        IsMade m.tables.draft.nodes m.tables.draft.ways m.order.places.items m.order.numbers.items
        m.links m.turns };
}

impl Map {
    /// How many nodes there are.
    pub fn nodes(&self) -> u32
        ensures value { result ≡ length self.now.nodes }
        ensures lawful { IsMap self.now }
    {
        let _ = &self.order;
        self.tables.nodes()
    }

    /// The id of a node.
    pub fn node_id(&self, node: u32) -> i64
        requires in_range { node < length self.now.nodes }
        ensures value { result ≡ (node_at self.now.nodes node).id }
    {
        self.tables.node_id(self.order.places[node as usize])
    }

    /// Where a node lies.
    pub fn node_spot(&self, node: u32) -> Spot
        requires in_range { node < length self.now.nodes }
        ensures value { place_of result ≡ (node_at self.now.nodes node).content }
    {
        self.tables.node_spot(self.order.places[node as usize])
    }

    /// The tags of a node.
    pub fn node_tags(&self, node: u32) -> &Tags
        requires in_range { node < length self.now.nodes }
        ensures value { result.now ≡ (node_at self.now.nodes node).tags }
    {
        self.tables.node_tags(self.order.places[node as usize])
    }

    /// The node of an id.
    pub fn find_node(&self, id: i64) -> Option<u32>
        ensures value { result ≡ place_of_id id self.now.nodes }
    {
        match self.tables.find_node(id) {
            None => None,
            Some(place) => Some(self.order.numbers[place as usize]),
        }
    }

    /// How many ways there are.
    pub fn ways(&self) -> u32
        ensures value { result ≡ length self.now.ways }
    {
        self.tables.ways()
    }

    /// The id of a way.
    pub fn way_id(&self, way: u32) -> i64
        requires in_range { way < length self.now.ways }
        ensures value { result ≡ (way_at self.now.ways way).id }
    {
        self.tables.way_id(way)
    }

    /// The tags of a way, those of its routes behind its own.
    pub fn way_tags(&self, way: u32) -> &Tags
        requires in_range { way < length self.now.ways }
        ensures value { result.now ≡ (way_at self.now.ways way).tags }
    {
        self.tables.way_tags(way)
    }

    /// How many links there are.
    pub fn links(&self) -> u32
        ensures value { result ≡ length self.now.links }
        ensures lawful { IsMap self.now }
    {
        self.links.len()
    }

    /// The link of a number.
    pub fn link(&self, link: u32) -> Link
        requires in_range { link < length self.now.links }
        ensures value { result ≡ link_of self.now link }
    {
        self.links.link(link)
    }

    /// The link of a way's id, a segment of it and a direction.
    pub fn find_link(&self, way: i64, segment: u32, back: bool) -> Option<u32>
        ensures exact { FindsLink self.now
            (record { way = way; segment = segment; back = back }) result }
    {
        match self.tables.find_way(way) {
            None => None,
            Some(number) => find(&self.links, number, segment, back),
        }
    }

    /// The links that leave a node, ascending.
    pub fn out_links(&self, node: u32) -> &[u32]
        requires in_range { node < length self.now.nodes }
        ensures value { result.now ≡ out_links (roads_of self.now) node }
    {
        self.links.leaving(node)
    }

    /// Whether a turn restriction forbids the second link after the first, which leaves where the
    /// first arrives.
    pub fn forbids(&self, first: u32, second: u32) -> bool
        requires first_in { first < length self.now.links }
        requires second_in { second < length self.now.links }
        requires joins { (link_of self.now second).from ≡ (link_of self.now first).to }
        ensures value { result ≡ forbids_of self.now first second }
    {
        self.turns
            .forbids(&self.links.link(first), &self.links.link(second))
    }
}
