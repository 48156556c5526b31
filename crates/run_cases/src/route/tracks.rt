//! Tracks told in a line.

use item_list::{Items, append_bytes, append_number, append_signed, append_wide};
use overpass_graph::Map;
use std::alloc::AllocError;
use track_legs::{Leg, Track};

/// Appends what a track costs and ranks, its nodes, its legs and the earlier alternatives.
pub(crate) fn append_track(text: &mut Vec<u8>, map: &Map, track: &Track) -> Result<(), AllocError> {
    append_costs(text, track.legs.as_slice())?;
    append_nodes(text, map, track.nodes.as_slice())?;
    append_legs(text, map, track.legs.as_slice())?;
    append_earlier(text, map, track.earlier.as_slice())
}

/// Appends the sums of what legs cost and rank.
pub(crate) fn append_costs(text: &mut Vec<u8>, legs: &[Leg]) -> Result<(), AllocError> {
    let mut cost = 0u128;
    let mut rank = 0u128;
    'legs: for place in 0..legs.len() {
        cost = cost.saturating_add(legs[place].cost);
        rank = rank.saturating_add(legs[place].rank);
    }
    append_bytes(text, b"cost ")?;
    append_wide(text, cost)?;
    append_bytes(text, b" rank ")?;
    append_wide(text, rank)
}

/// Appends the ids of the nodes of waypoints.
fn append_nodes(text: &mut Vec<u8>, map: &Map, nodes: &[u32]) -> Result<(), AllocError> {
    append_bytes(text, b" nodes")?;
    'nodes: for place in 0..nodes.len() {
        append_node(text, map, nodes[place])?;
    }
    Ok(())
}

/// Appends the id of a node.
fn append_node(text: &mut Vec<u8>, map: &Map, node: u32) -> Result<(), AllocError> {
    append_bytes(text, b" ")?;
    if node < map.nodes() {
        append_signed(text, map.node_id(node))
    } else {
        append_bytes(text, b"?")
    }
}

/// Appends the walks of legs.
fn append_legs(text: &mut Vec<u8>, map: &Map, legs: &[Leg]) -> Result<(), AllocError> {
    append_bytes(text, b" legs ")?;
    'legs: for place in 0..legs.len() {
        if place > 0 {
            append_bytes(text, b";")?;
        }
        append_walk(text, map, legs[place].links.as_slice())?;
    }
    Ok(())
}

/// Appends the alternatives before the one that was asked for.
fn append_earlier(
    text: &mut Vec<u8>,
    map: &Map,
    earlier: &[Items<Items<u32>>],
) -> Result<(), AllocError> {
    let count = match earlier.get(0) {
        Some(walks) => walks.len(),
        None => 0,
    };
    'alternatives: for number in 0..count {
        append_bytes(text, b" earlier ")?;
        append_walks(text, map, earlier, number)?;
    }
    Ok(())
}

/// Appends the walks of an alternative.
fn append_walks(
    text: &mut Vec<u8>,
    map: &Map,
    earlier: &[Items<Items<u32>>],
    number: usize,
) -> Result<(), AllocError> {
    'legs: for leg in 0..earlier.len() {
        if leg > 0 {
            append_bytes(text, b";")?;
        }
        append_walk(text, map, walk_at(earlier[leg].as_slice(), number))?;
    }
    Ok(())
}

/// The walk of an alternative among those of a leg.
fn walk_at(walks: &[Items<u32>], number: usize) -> &[u32] {
    match walks.get(number) {
        Some(walk) => walk.as_slice(),
        None => &[],
    }
}

/// Appends the links of a walk, or a sign that there is none.
fn append_walk(text: &mut Vec<u8>, map: &Map, walk: &[u32]) -> Result<(), AllocError> {
    if walk.is_empty() {
        return append_bytes(text, b"-");
    }
    'links: for place in 0..walk.len() {
        if place > 0 {
            append_bytes(text, b",")?;
        }
        append_link(text, map, walk[place])?;
    }
    Ok(())
}

/// Appends the way, the segment and the direction of a link.
fn append_link(text: &mut Vec<u8>, map: &Map, link: u32) -> Result<(), AllocError> {
    if link >= map.links() {
        return append_bytes(text, b"?");
    }
    let taken = map.link(link);
    append_way(text, map, taken.way)?;
    append_bytes(text, b"/")?;
    append_number(text, u64::from(taken.segment))?;
    append_bytes(text, if link % 2 == 0 { b"/f" } else { b"/b" })
}

/// Appends the id of a way.
fn append_way(text: &mut Vec<u8>, map: &Map, way: u32) -> Result<(), AllocError> {
    if way < map.ways() {
        append_signed(text, map.way_id(way))
    } else {
        append_bytes(text, b"?")
    }
}
