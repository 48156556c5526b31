//! Where a waypoint is moved.

mod signs;

ghost use Rattle.std.specs.Prelude.{◌<◌, IfSome, length};

use crate::near::signs::Signs;
use case_inputs::Case;
use geo_int::Spot;
use nearest_node::NodeIndex;
use overpass_graph::Map;
use std::alloc::{AllocError, Global};

/// The id of the node to which the waypoint of a case is moved.
pub(crate) fn nearest(alloc: Global, case: &Case, map: &Map) -> Result<String, AllocError> {
    let index = NodeIndex::new(alloc, map)?;
    let signs = Signs {
        signs: case.word(2),
        links: map.links(),
    };
    match Spot::new(case.signed(3), case.signed(4)) {
        Some(at) => told(alloc, map, index.nearest(map, &signs, at)),
        None => String::from_str(alloc, "no place"),
    }
}

/// The id of a node as text.
fn told(alloc: Global, map: &Map, node: Option<u32>) -> Result<String, AllocError>
    requires in_range { IfSome node (λ n. n < length map.now.nodes) }
{
    match node {
        Some(node) => format!(in alloc; "{}", map.node_id(node)),
        None => String::from_str(alloc, "none"),
    }
}
