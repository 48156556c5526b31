//! The map of tables, made part after part.

ghost use Rattle.std.specs.Prelude.{◌≡◌, ◌⊎◌, ◌<◌, IfErr, IfOk, MatchResult, None, Some};
ghost use Rattle.item_list.specs.Answer.{Passes};
ghost use Rattle.map_tables.specs.Kept.{AreDistinct};
ghost use Rattle.map_tables.specs.declared.error.MapError.TheVariants.{NoMemory};
ghost use Rattle.overpass_graph.specs.Links.{first_missing, missing_fault};
ghost use Rattle.overpass_graph.specs.Making.{AreLinksFor, AreTurnsFor};
ghost use Rattle.overpass_graph.specs.Maps.{AreIds, IsMapOf};
ghost use Rattle.overpass_graph.specs.Orders.{IsNodeOrder};

use crate::lay::lay;
use crate::map::Map;
use crate::order::NodeOrder;
use crate::pairs::Links;
use crate::restrictions::restrictions;
use crate::routes::tag_routes;
use crate::rows::rows_of;
use crate::turns::Turns;
use map_tables::{MapError, Tables};
use std::alloc::{AllocError, Global};

/// The order of the nodes of tables.
fn order_of(alloc: Global, tables: &Tables) -> Result<NodeOrder, AllocError>
    ensures exact { IfOk result
        (λ o. IsNodeOrder tables.now.draft.nodes o.places.items o.numbers.items) }
{
    let _count = tables.nodes();
    let rows = rows_of(alloc, tables)?;
    NodeOrder::new(alloc, rows)
}

/// The links of tables, or the first node that is missing.
fn links_of(alloc: Global, tables: &Tables, order: &NodeOrder) -> Result<Links, MapError>
    requires distinct { AreDistinct tables.now.draft.nodes }
    requires order { IsNodeOrder tables.now.draft.nodes order.now.places.items
        order.now.numbers.items }
    ensures missing { Passes
        (missing_fault (first_missing tables.now.draft.nodes tables.now.draft.ways)) NoMemory
        result }
    ensures exact { IfOk result
        (AreLinksFor tables.now.draft order.now.places.items order.now.numbers.items) }
{
    let count = tables.nodes();
    let laid = lay(alloc, tables, order)?;
    match Links::new(alloc, count, laid) {
        Ok(links) => {
            let _few = links.len();
            Ok(links)
        }
        Err(_) => Err(MapError::NoMemory),
    }
}

/// The turns that the restrictions of tables forbid.
fn turns_of(alloc: Global, tables: &Tables, order: &NodeOrder) -> Result<Turns, AllocError>
    requires distinct { AreDistinct tables.now.draft.nodes }
    requires order { IsNodeOrder tables.now.draft.nodes order.now.places.items
        order.now.numbers.items }
    ensures exact { IfOk result (AreTurnsFor tables.now.draft order.now.places.items) }
{
    let list = restrictions(alloc, tables, order)?;
    Turns::new(alloc, tables.nodes(), list)
}

/// Reads the id of each way, so that it is known to have 64 bits.
fn read_ids(tables: &Tables)
    ensures fits { AreIds tables.now.draft.ways }
{
    'ways: for way in 0..tables.ways() {
        let _id = tables.way_id(way);
    }
}

/// The map of these parts, whose ways get the tags of their routes.
fn with_turns(
    alloc: Global,
    mut tables: Tables,
    order: NodeOrder,
    links: Links,
    turns: Turns,
) -> Result<Map, MapError>
    requires distinct { AreDistinct tables.draft.nodes }
    requires order { IsNodeOrder tables.draft.nodes order.places.items order.numbers.items }
    requires links { AreLinksFor tables.draft order.places.items order.numbers.items links }
    requires turns { AreTurnsFor tables.draft order.places.items turns }
    ensures exact { IfOk result (λ map. IsMapOf tables.draft map) }
    ensures refused { IfErr result (λ e. e ≡ NoMemory) }
{
    let _limits = tables.limits();
    let _segments = tables.segments();
    read_ids(&tables);
    match tag_routes(alloc, &mut tables) {
        Ok(()) => Ok(Map {
            tables,
            order,
            links,
            turns,
        }),
        Err(e) => Err(e),
    }
}

/// The map of these parts and the turns of the tables.
fn with_links(
    alloc: Global,
    tables: Tables,
    order: NodeOrder,
    links: Links,
) -> Result<Map, MapError>
    requires distinct { AreDistinct tables.draft.nodes }
    requires order { IsNodeOrder tables.draft.nodes order.places.items order.numbers.items }
    requires links { AreLinksFor tables.draft order.places.items order.numbers.items links }
    ensures exact { IfOk result (λ map. IsMapOf tables.draft map) }
    ensures refused { IfErr result (λ e. e ≡ NoMemory) }
{
    match turns_of(alloc, &tables, &order) {
        Ok(turns) => with_turns(alloc, tables, order, links, turns),
        Err(_) => Err(MapError::NoMemory),
    }
}

/// The map of tables whose nodes are in this order, or the first node that is missing.
fn with_order(alloc: Global, tables: Tables, order: NodeOrder) -> Result<Map, MapError>
    requires distinct { AreDistinct tables.draft.nodes }
    requires order { IsNodeOrder tables.draft.nodes order.places.items order.numbers.items }
    ensures exact { let lacks =
        missing_fault (first_missing tables.draft.nodes tables.draft.ways) in
        MatchResult result (λ map. (lacks ≡ None) × IsMapOf tables.draft map) (λ e. (e ≡ NoMemory) ⊎
        (lacks ≡ Some e)) }
{
    match links_of(alloc, &tables, &order) {
        Ok(links) => with_links(alloc, tables, order, links),
        Err(e) => Err(e),
    }
}

/// The map of tables, or the first node that is missing.
pub(crate) fn map_of(alloc: Global, tables: Tables) -> Result<Map, MapError>
    ensures exact { let lacks =
        missing_fault (first_missing tables.draft.nodes tables.draft.ways) in
        MatchResult result (λ map. (lacks ≡ None) × IsMapOf tables.draft map) (λ e. (e ≡ NoMemory) ⊎
        (lacks ≡ Some e)) }
{
    let _limits = tables.limits();
    match order_of(alloc, &tables) {
        Ok(order) => with_order(alloc, tables, order),
        Err(_) => Err(MapError::NoMemory),
    }
}
