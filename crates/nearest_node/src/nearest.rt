//! The nearest node of a place.

ghost use Rattle.std.specs.Prelude.{◌≡◌, ◌<◌, ◌≤◌, ◌/◌, ◌%◌, ◌^◌, length};
ghost use Rattle.geo_int.specs.Spot.{place_of};
ghost use Rattle.overpass_graph.specs.Maps.{IsMap, roads_of};
ghost use Rattle.nearest_node.specs.Best.{IsBest, IsFirstOf, rank_of};
ghost use Rattle.nearest_node.specs.Index.{IsIndex};
ghost use Rattle.nearest_node.specs.Nearest.{IsEnd, IsMovedTo, place_at};

use crate::ends::is_end;
use crate::index::NodeIndex;
use crate::rank::{NO_RANK, north, rank};
use cost_model::OpenLinks;
use geo_int::Spot;
use overpass_graph::Map;

impl NodeIndex {
    /// The node to which a waypoint is moved: of the nodes that some open link leaves or reaches
    /// the nearest, of those as near the first; none where none lies within 250 metres. The index
    /// is that of the map. It takes no memory.
    pub fn nearest<O: OpenLinks>(&self, map: &Map, passages: &O, at: Spot) -> Option<u32>
        requires index { IsIndex (length map.now.nodes) (place_at map.now) self.now.keys.items }
        requires same_links { (O.opens passages.now).count ≡ length map.now.links }
        ensures exact { IsMovedTo (length map.now.nodes) (place_at map.now)
            (IsEnd (roads_of map.now) (O.opens passages.now).is_open) (place_of at) result }
    {
        let _ = map.nodes();
        let start = first_north_of(self.keys.as_slice(), at);
        let best = upward(self.keys.as_slice(), map, passages, at, start, NO_RANK);
        let best = downward(self.keys.as_slice(), map, passages, at, start, best);
        if best < NO_RANK {
            Some(number(best))
        } else {
            None
        }
    }
}

/// A place of the keys where to begin: any is right, the first that lies no farther south is quick.
fn first_north_of(keys: &[u64], at: Spot) -> usize
    ensures within { result ≤ length keys.now }
{
    let south = (at.ilat as u64) << 32;
    keys.partition_point(|key| *key < south)
}

/// The better of the best so far and of all nodes from a place of the keys on.
fn upward<O: OpenLinks>(
    keys: &[u64],
    map: &Map,
    passages: &O,
    at: Spot,
    start: usize,
    best: u64,
) -> u64
    requires lawful { IsMap map.now }
    requires index { IsIndex (length map.now.nodes) (place_at map.now) keys.now }
    requires same_links { (O.opens passages.now).count ≡ length map.now.links }
    requires best { IsBest (length map.now.nodes) (place_at map.now)
        (IsEnd (roads_of map.now) (O.opens passages.now).is_open)
        (place_of at) best }
    ensures best { IsBest (length map.now.nodes) (place_at map.now)
        (IsEnd (roads_of map.now) (O.opens passages.now).is_open)
        (place_of at) result }
    ensures better { result ≤ best }
    ensures first { IsFirstOf (place_at map.now)
        (IsEnd (roads_of map.now) (O.opens passages.now).is_open)
        (place_of at) keys.now start (length keys.now) result }
{
    let mut best = best;
    'keys: for place in start..keys.len() {
        let key = keys[place];
        if north(latitude(key).saturating_sub(at.ilat)) > best >> 32 {
            return best;
        }
        best = better(map, passages, at, number(key), best);
    }
    best
}

/// The better of the best so far and of all nodes before a place of the keys.
fn downward<O: OpenLinks>(
    keys: &[u64],
    map: &Map,
    passages: &O,
    at: Spot,
    start: usize,
    best: u64,
) -> u64
    requires lawful { IsMap map.now }
    requires index { IsIndex (length map.now.nodes) (place_at map.now) keys.now }
    requires same_links { (O.opens passages.now).count ≡ length map.now.links }
    requires best { IsBest (length map.now.nodes) (place_at map.now)
        (IsEnd (roads_of map.now) (O.opens passages.now).is_open)
        (place_of at) best }
    requires within { start ≤ length keys.now }
    ensures best { IsBest (length map.now.nodes) (place_at map.now)
        (IsEnd (roads_of map.now) (O.opens passages.now).is_open)
        (place_of at) result }
    ensures better { result ≤ best }
    ensures first { IsFirstOf (place_at map.now)
        (IsEnd (roads_of map.now) (O.opens passages.now).is_open)
        (place_of at) keys.now 0 start result }
{
    let mut best = best;
    let mut place = start;
    'keys: while place > 0 {
        place -= 1;
        let key = keys[place];
        if north(at.ilat.saturating_sub(latitude(key))) > best >> 32 {
            return best;
        }
        best = better(map, passages, at, number(key), best);
    }
    best
}

/// The latitude of a key, in microdegrees from the south pole.
fn latitude(key: u64) -> u32
    ensures exact { result ≡ key / 2 ^ 32 }
{
    (key >> 32) as u32
}

/// The number of the node of a key or of a rank.
fn number(key: u64) -> u32
    ensures exact { result ≡ key % 2 ^ 32 }
{
    (key % (1 << 32)) as u32
}

/// The better of the best so far and of one node.
fn better<O: OpenLinks>(map: &Map, passages: &O, at: Spot, node: u32, best: u64) -> u64
    requires in_range { node < length map.now.nodes }
    requires lawful { IsMap map.now }
    requires same_links { (O.opens passages.now).count ≡ length map.now.links }
    requires best { IsBest (length map.now.nodes) (place_at map.now)
        (IsEnd (roads_of map.now) (O.opens passages.now).is_open)
        (place_of at) best }
    ensures best { IsBest (length map.now.nodes) (place_at map.now)
        (IsEnd (roads_of map.now) (O.opens passages.now).is_open)
        (place_of at) result }
    ensures better { result ≤ best }
    ensures first { IsEnd (roads_of map.now) (O.opens passages.now).is_open node →
        result ≤ rank_of (place_at map.now) (place_of at) node }
{
    let found = rank(at, map.node_spot(node), node);
    if found < best && is_end(map, passages, node) {
        found
    } else {
        best
    }
}
