//! The links of all ways, in their order.

ghost use Rattle.std.specs.Prelude.{◌≡◌, ◌<◌, IfOk, IfErr, OnOk, MatchResult, Some, None, option_map, length, get_or, pos};
ghost use Rattle.item_list.specs.Answer.{Passes};
ghost use Rattle.map_tables.specs.Kept.{place_of_id};
ghost use Rattle.map_tables.specs.declared.error.MapError.TheVariants.{MissingNode, NoMemory};
ghost use Rattle.overpass_graph.specs.Laying.{AreNumbers, links_at, links_up_to};
ghost use Rattle.overpass_graph.specs.Links.{first_missing, links_from, links_of_way, missing_fault, missing_in};
ghost use Rattle.overpass_graph.specs.Maps.{way_at};
ghost use Rattle.overpass_graph.specs.Orders.{IsNodeOrder, picked};
ghost use Rattle.overpass_graph.specs.Pairs.{IsSoundLaid, Lays, links_now};
ghost use Rattle.map_tables.specs.Kept.{AreDistinct};

use crate::order::NodeOrder;
use crate::pairs::Laid;
use geo_int::arrow;
use map_tables::{MapError, Tables};
use std::alloc::{AllocError, Global};

/// The links of all ways of the tables, or the first node that is missing.
pub(crate) fn lay(alloc: Global, tables: &Tables, order: &NodeOrder) -> Result<Laid, MapError>
    requires distinct { AreDistinct tables.now.draft.nodes }
    requires order { IsNodeOrder tables.now.draft.nodes order.now.places.items
        order.now.numbers.items }
    ensures missing { Passes
        (missing_fault (first_missing tables.now.draft.nodes tables.now.draft.ways)) NoMemory
        result }
    ensures sound { IfOk result (IsSoundLaid (length tables.now.draft.nodes)) }
    ensures links { IfOk result (λ laid. links_now laid
        ≡ links_from (picked tables.now.draft.nodes order.now.places.items) 0
        tables.now.draft.ways) }
{
    let mut laid = Laid::new(alloc);
    'ways: for way in 0..tables.ways() {
        lay_way(tables, order, way, &mut laid)?;
    }
    Ok(laid)
}

/// The links of one more way.
fn lay_way(tables: &Tables, order: &NodeOrder, way: u32, laid: &mut Laid) -> Result<(), MapError>
    requires distinct { AreDistinct tables.now.draft.nodes }
    requires order { IsNodeOrder tables.now.draft.nodes order.now.places.items
        order.now.numbers.items }
    requires in_range { way < length tables.now.draft.ways }
    requires sound { IsSoundLaid (length tables.now.draft.nodes) laid.old }
    ensures missing { let k = way_at tables.now.draft.ways way in
        Passes (option_map (MissingNode k.id) (missing_in tables.now.draft.nodes k.content))
        NoMemory result }
    ensures links { OnOk result (Lays (length tables.now.draft.nodes) laid.old laid.new
        (links_of_way (picked tables.now.draft.nodes order.now.places.items) way
        (way_at tables.now.draft.ways way).content)) }
{
    let ids = tables.way_nodes(way);
    let mut last = 0;
    'ids: for place in 0..ids.len() {
        let node = found(tables, way, id_at(ids, place))?;
        lay_up_to(
            tables,
            order.numbers.as_slice(),
            way,
            place,
            last,
            node,
            laid,
        )?;
        last = node;
    }
    Ok(())
}

/// The id at a place.
fn id_at(ids: &[i64], place: usize) -> i64
    requires in_range { place < length ids.now }
    ensures value { result ≡ get_or ids.now place (pos 0) }
{
    ids[place]
}

/// The place of a way's node.
fn found(tables: &Tables, way: u32, id: i64) -> Result<u32, MapError>
    requires in_range { way < length tables.now.draft.ways }
    ensures exact { MatchResult result
        (λ node. (place_of_id id tables.now.draft.nodes ≡ Some node) ×
        (node < length tables.now.draft.nodes))
        (λ e. (place_of_id id tables.now.draft.nodes ≡ None) ×
        (e ≡ MissingNode (way_at tables.now.draft.ways way).id id)) }
{
    match tables.find_node(id) {
        Some(node) => Ok(node),
        None => Err(MapError::MissingNode {
            way: tables.way_id(way),
            node: id,
        }),
    }
}

/// The links of the segment that ends at a place of a way, where it isn't the first.
fn lay_up_to(
    tables: &Tables,
    numbers: &[u32],
    way: u32,
    place: usize,
    a: u32,
    b: u32,
    laid: &mut Laid,
) -> Result<(), MapError>
    requires numbers { AreNumbers tables.now.draft.nodes numbers.now }
    requires a_in { 0 < place → a < length tables.now.draft.nodes }
    requires b_in { b < length tables.now.draft.nodes }
    requires sound { IsSoundLaid (length tables.now.draft.nodes) laid.old }
    ensures links { OnOk result (Lays (length tables.now.draft.nodes) laid.old laid.new
        (links_up_to tables.now.draft.nodes numbers.now way place a b)) }
    ensures refused { IfErr result (λ e. e ≡ NoMemory) }
{
    if place == 0 {
        return Ok(());
    }
    match lay_segment(tables, numbers, way, place - 1, a, b, laid) {
        Ok(()) => Ok(()),
        Err(_) => Err(MapError::NoMemory),
    }
}

/// The links of a segment between the nodes at two places.
fn lay_segment(
    tables: &Tables,
    numbers: &[u32],
    way: u32,
    segment: usize,
    a: u32,
    b: u32,
    laid: &mut Laid,
) -> Result<(), AllocError>
    requires numbers { AreNumbers tables.now.draft.nodes numbers.now }
    requires a_in { a < length tables.now.draft.nodes }
    requires b_in { b < length tables.now.draft.nodes }
    requires sound { IsSoundLaid (length tables.now.draft.nodes) laid.old }
    ensures links { OnOk result (Lays (length tables.now.draft.nodes) laid.old laid.new
        (links_at tables.now.draft.nodes numbers.now way segment a b)) }
{
    if a == b {
        return Ok(());
    }
    if arrow(tables.node_spot(a), tables.node_spot(b)).is_none() {
        return Ok(());
    }
    if segment > u32::MAX as usize {
        return Err(AllocError);
    }
    laid.push(
        way,
        segment as u32,
        numbers[a as usize],
        numbers[b as usize],
    )
}
