//! Whether a list of links is a walk that a rider may take.

ghost use Rattle.std.specs.Prelude.{◌≡◌, ◌↔◌, ◌<◌, IfSome, IsTrue, length};
ghost use Rattle.cost_model.specs.OpenLinks.{forbids_where, open_by};
ghost use Rattle.cost_model.specs.Rides.{IsPermittedWalk, ride_of};
ghost use Rattle.overpass_graph.specs.Maps.{forbids_of, link_of, roads_of};
ghost use Rattle.overpass_graph.specs.Walks.{MayFollow};
ghost use Rattle.track_legs.specs.Steps.{HasReached, MayComeNext, MayLeave};

use crate::terrain_facts::TerrainFacts;
use cost_model::{OpenLinks, Passages, TerrainOf};
use overpass_graph::Map;

/// Whether these links are a walk from a node to a node that a rider may take: over open links, and
/// where `turns` count against no turn restriction.
pub(crate) fn is_walk<G: TerrainOf>(
    terrain: &G,
    cut: &[bool],
    turns: bool,
    start: u32,
    target: u32,
    walk: &[u32],
) -> bool
    ensures exact { IsTrue result ↔ IsPermittedWalk (ride_of (record {
      terrain = G.terrain terrain.now;
      cut = cut.now;
      turns = turns;
    })) start target walk.now }
{
    let mut node = start;
    let mut last = None;
    'links: for place in 0..walk.len() {
        let link = walk[place];
        if !may_come_next(terrain, cut, turns, node, last, link) {
            return false;
        }
        node = terrain.map().link(link).to;
        last = Some(link);
    }
    node == target
}

/// Whether a link may come next where a walk stands at a node, after its last link if it has one.
fn may_come_next<G: TerrainOf>(
    terrain: &G,
    cut: &[bool],
    turns: bool,
    node: u32,
    last: Option<u32>,
    link: u32,
) -> bool
    requires reached { let roads = roads_of (G.terrain terrain.now).map in
        IfSome last (λ before. HasReached roads node before) }
    ensures exact { IsTrue result ↔ MayComeNext (ride_of (record {
      terrain = G.terrain terrain.now;
      cut = cut.now;
      turns = turns;
    })) node last link }
{
    if !may_leave(terrain, cut, node, link) {
        return false;
    }
    match last {
        Some(before) => may_follow(terrain.map(), turns, before, link),
        None => true,
    }
}

/// Whether a link may be taken at a node.
fn may_leave<G: TerrainOf>(terrain: &G, cut: &[bool], node: u32, link: u32) -> bool
    ensures exact { let terrain = G.terrain terrain.now in IsTrue result ↔
        MayLeave (roads_of terrain.map) (open_by terrain.links.facts cut.now) node link }
{
    let map = terrain.map();
    let facts = &TerrainFacts { terrain };
    let passages = Passages { facts, cut };
    link < map.links() && (passages.is_open(link) && map.link(link).from == node)
}

/// Whether a link that leaves where another arrives may be taken after it.
fn may_follow(map: &Map, turns: bool, first: u32, second: u32) -> bool
    requires first_in { first < length map.now.links }
    requires second_in { second < length map.now.links }
    requires joins { (link_of map.now second).from ≡ (link_of map.now first).to }
    ensures exact { IsTrue result ↔ MayFollow (roads_of map.now)
        (forbids_where turns (forbids_of map.now)) first second }
{
    map.link(second).to != map.link(first).from && !(turns && map.forbids(first, second))
}
