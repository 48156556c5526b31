//! The nodes of a map by latitude.

ghost use Rattle.std.specs.Prelude.{◌≡◌, ◌+◌, ◌*◌, ◌^◌, IfOk, length};
ghost use Rattle.geo_int.specs.Spot.{place_of};
ghost use Rattle.nearest_node.specs.Index.{IsIndex, height_of, keys_below};
ghost use Rattle.nearest_node.specs.Nearest.{place_at};

use geo_int::Spot;
use overpass_graph::Map;
use std::alloc::{AllocError, Global};

/// The nodes of a map by latitude: 8 bytes a node. It is made once a map, and finds the nearest
/// node of a place without a pass over all nodes.
#[derive(Drop)]
pub struct NodeIndex {
    pub(crate) keys: Vec<u64>,
}

impl NodeIndex {
    /// The nodes of this map by latitude.
    pub fn new(alloc: Global, map: &Map) -> Result<NodeIndex, AllocError>
        ensures exact { IfOk result
            (λ index. IsIndex (length map.now.nodes) (place_at map.now) index.keys.items) }
    {
        let mut keys = keys(alloc, map)?;
        keys.sort_unstable();
        Ok(NodeIndex { keys })
    }
}

/// The keys of all nodes by number.
fn keys(alloc: Global, map: &Map) -> Result<Vec<u64>, AllocError>
    ensures exact { IfOk result
        (λ keys. keys.items ≡ keys_below (place_at map.now) (length map.now.nodes)) }
{
    let mut keys = Vec::new(alloc);
    'nodes: for node in 0..map.nodes() {
        keys.push(key(map.node_spot(node), node))?;
    }
    Ok(keys)
}

/// The key of a node at a spot: its latitude above, its number below.
fn key(spot: Spot, node: u32) -> u64
    ensures exact { result ≡ height_of (place_of spot) * 2 ^ 32 + node }
{
    ((spot.ilat as u64) << 32) + node as u64
}
