//! Whether a track may be shown.

ghost use Rattle.std.specs.Prelude.{ℕ, ◌<◌, ◌^◌, IsTrue, get_or, length};
ghost use Rattle.track_legs.specs.Rows.{AreBelow};
ghost use Rattle.track_legs.specs.Tracks.{node_at};
ghost use Rattle.track_reply.specs.Showable.{AreAlternativesBelow, AreWalksBelow, IsShowable};
ghost use Rattle.track_reply.specs.Source.{source_of};
ghost use Rattle.track_legs.specs.Sums.{total_cost, total_rank};

use cost_model::{FactsOf, PricedMap, modes};
use item_list::Items;
use overpass_graph::Map;
use track_legs::{Leg, Track, recheck};
use track_reply::Shown;

/// Whether a reply may show a track.
pub(crate) fn is_showable<F: FactsOf>(shown: &Shown<F>, track: &Track) -> bool
    ensures found { let source = source_of shown.now.map.now shown.now.table.now shown.now.tiles.now
        (F.links shown.now.facts.now) shown.now.rates.now shown.now.name.now
        shown.now.alternative in
        IsTrue result → IsShowable source track.now }
{
    let _links = shown.map.links();
    if shown.facts.count() != shown.map.links() {
        return false;
    }
    let terrain = PricedMap::new(shown.map, shown.facts, shown.rates, modes(shown.facts));
    if !recheck(track, &terrain, &[], false) {
        return false;
    }
    are_within(shown.map, track) && are_sums_small(track)
}

/// Whether all nodes of a track and all links of its earlier alternatives are a map's.
fn are_within(map: &Map, track: &Track) -> bool
    ensures nodes { IsTrue result →
        (k : ℕ) → k < length track.now.nodes → node_at track.now k < length map.now.nodes }
    ensures earlier { IsTrue result →
        AreAlternativesBelow (length map.now.links) track.now.earlier }
{
    are_nodes(map, track.nodes.as_slice()) && are_alternatives(map, track.earlier.as_slice())
}

/// Whether the costs of a track's legs and their ranks add up to less than 2^127 each.
fn are_sums_small(track: &Track) -> bool
    ensures costs { IsTrue result → total_cost track.now.legs < 2 ^ 127 }
    ensures ranks { IsTrue result → total_rank track.now.legs < 2 ^ 127 }
{
    are_costs_small(track.legs.as_slice()) && are_ranks_small(track.legs.as_slice())
}

/// Whether all these are nodes of a map.
fn are_nodes(map: &Map, nodes: &[u32]) -> bool
    ensures found { IsTrue result →
        (k : ℕ) → k < length nodes.now → get_or nodes.now k 0 < length map.now.nodes }
{
    'nodes: for place in 0..nodes.len() {
        if nodes[place] >= map.nodes() {
            return false;
        }
    }
    true
}

/// Whether all these are links of a map.
fn are_links(map: &Map, walk: &[u32]) -> bool
    ensures found { IsTrue result → AreBelow (length map.now.links) walk.now }
{
    'links: for place in 0..walk.len() {
        if walk[place] >= map.links() {
            return false;
        }
    }
    true
}

/// Whether the links of all these walks are a map's.
fn are_walks(map: &Map, walks: &[Items<u32>]) -> bool
    ensures found { IsTrue result → AreWalksBelow (length map.now.links) walks.now }
{
    'walks: for place in 0..walks.len() {
        if !are_links(map, walks[place].as_slice()) {
            return false;
        }
    }
    true
}

/// Whether the links of the alternatives of all these legs are a map's.
fn are_alternatives(map: &Map, earlier: &[Items<Items<u32>>]) -> bool
    ensures found { IsTrue result → AreAlternativesBelow (length map.now.links) earlier.now }
{
    'alternatives: for place in 0..earlier.len() {
        if !are_walks(map, earlier[place].as_slice()) {
            return false;
        }
    }
    true
}

/// Whether the costs of legs add up to less than 2^127.
#[tactic(auto, unfolding(track_legs::specs::Sums::total_cost))]
fn are_costs_small(legs: &[Leg]) -> bool
    ensures found { IsTrue result → total_cost legs.now < 2 ^ 127 }
{
    let mut sum = 0u128;
    'legs: for place in 0..legs.len() {
        match sum.checked_add(legs[place].cost) {
            Some(next) => sum = next,
            None => return false,
        }
    }
    sum < 1 << 127
}

/// Whether the ranks of legs add up to less than 2^127.
#[tactic(auto, unfolding(track_legs::specs::Sums::total_rank))]
fn are_ranks_small(legs: &[Leg]) -> bool
    ensures found { IsTrue result → total_rank legs.now < 2 ^ 127 }
{
    let mut sum = 0u128;
    'legs: for place in 0..legs.len() {
        match sum.checked_add(legs[place].rank) {
            Some(next) => sum = next,
            None => return false,
        }
    }
    sum < 1 << 127
}
