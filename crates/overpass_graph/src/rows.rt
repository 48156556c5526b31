//! The ids of all nodes of tables, and the number of an id.

ghost use Rattle.std.specs.Prelude.{◌≡◌, ◌<◌, length, IfOk, IfSome};
ghost use Rattle.map_tables.specs.Kept.{AreDistinct, place_of_id};
ghost use Rattle.overpass_graph.specs.Orders.{AreRowsOf, IsNodeOrder, picked};

use crate::order::{NodeId, NodeOrder};
use map_tables::Tables;
use std::alloc::{AllocError, Global};

/// The id of each node with its place, in the order of the text.
pub(crate) fn rows_of(alloc: Global, tables: &Tables) -> Result<Vec<NodeId>, AllocError>
    ensures exact { IfOk result (λ rows. AreRowsOf tables.now.draft.nodes rows.items) }
{
    let count = tables.nodes();
    let mut rows = Vec::with_capacity(alloc, count as usize)?;
    'nodes: for node in 0..count {
        let id = tables.node_id(node);
        rows.push(NodeId { id, place: node })?;
    }
    Ok(rows)
}

/// The number of the node of an id.
pub(crate) fn number_of(tables: &Tables, order: &NodeOrder, id: i64) -> Option<u32>
    requires distinct { AreDistinct tables.now.draft.nodes }
    requires order { IsNodeOrder tables.now.draft.nodes order.now.places.items
        order.now.numbers.items }
    ensures value { result ≡ place_of_id id (picked tables.now.draft.nodes order.now.places.items) }
    ensures within { IfSome result (λ node. node < length tables.now.draft.nodes) }
{
    match tables.find_node(id) {
        None => None,
        Some(place) => Some(order.numbers[place as usize]),
    }
}
