//! The turn restrictions among relations.

ghost use Rattle.std.specs.Prelude.{◌≡◌, ◌<◌, ◌++◌, length, IfOk, None, OnOk, Some, option_to_list};
ghost use Rattle.map_tables.specs.Kept.{AreDistinct};
ghost use Rattle.overpass_graph.specs.Members.{relation_at};
ghost use Rattle.overpass_graph.specs.Orders.{IsNodeOrder, picked};
ghost use Rattle.overpass_graph.specs.Restrictions.{in_role, restriction_by, restriction_of, restrictions_of, ways_of};
ghost use lib.Chars.{codes};
ghost use Rattle.overpass_graph.specs.Turns.{AreViasBelow};

use crate::members::{via_node, ways_in_role};
use crate::order::NodeOrder;
use crate::restriction::{Restriction, RestrictionKind};
use crate::tag_values::kind_for_bicycles;
use item_list::Items;
use map_tables::Tables;
use std::alloc::{AllocError, Global};

/// The restriction of these ends; none where one of them has no way.
fn restriction_between(
    kind: RestrictionKind,
    via: u32,
    from: Vec<u32>,
    to: Vec<u32>,
) -> Option<Restriction>
    ensures value { result ≡ restriction_by (Some kind) (Some via) from.items to.items }
{
    if from.is_empty() {
        return None;
    }
    if to.is_empty() {
        return None;
    }
    Some(Restriction {
        kind,
        via,
        from: Items::from_vec(from),
        to: Items::from_vec(to),
    })
}

/// The restriction of this kind at this node that a relation is, where it is one.
fn restriction_at(
    alloc: Global,
    tables: &Tables,
    relation: u32,
    kind: RestrictionKind,
    via: u32,
) -> Result<Option<Restriction>, AllocError>
    requires fits { relation < length tables.now.draft.relations }
    ensures exact { IfOk result (λ r. r ≡ restriction_by (Some kind) (Some via)
        (ways_of tables.now.draft.ways (in_role (codes "from")
        (relation_at tables.now.draft.relations relation).content))
        (ways_of tables.now.draft.ways (in_role (codes "to")
        (relation_at tables.now.draft.relations relation).content))) }
{
    let from = ways_in_role(alloc, tables, relation, b"from".as_slice())?;
    let to = ways_in_role(alloc, tables, relation, b"to".as_slice())?;
    Ok(restriction_between(kind, via, from, to))
}

/// The restriction that a relation is, where it is one.
fn restriction(
    alloc: Global,
    tables: &Tables,
    order: &NodeOrder,
    relation: u32,
) -> Result<Option<Restriction>, AllocError>
    requires fits { relation < length tables.now.draft.relations }
    requires distinct { AreDistinct tables.now.draft.nodes }
    requires order { IsNodeOrder tables.now.draft.nodes order.now.places.items
        order.now.numbers.items }
    ensures exact { IfOk result
        (λ r. r ≡ restriction_of (picked tables.now.draft.nodes order.now.places.items)
        tables.now.draft.ways (relation_at tables.now.draft.relations relation)) }
    ensures below { IfOk result
        (λ r. AreViasBelow (length tables.now.draft.nodes) (option_to_list r)) }
{
    let Some(kind) = kind_for_bicycles(tables.relation_tags(relation)) else {
        return Ok(None);
    };
    let Some(via) = via_node(tables, order, relation) else {
        return Ok(None);
    };
    restriction_at(alloc, tables, relation, kind, via)
}

/// Puts the restriction that a relation is behind others.
fn add_restriction(
    alloc: Global,
    tables: &Tables,
    order: &NodeOrder,
    relation: u32,
    list: &mut Vec<Restriction>,
) -> Result<(), AllocError>
    requires fits { relation < length tables.now.draft.relations }
    requires distinct { AreDistinct tables.now.draft.nodes }
    requires order { IsNodeOrder tables.now.draft.nodes order.now.places.items
        order.now.numbers.items }
    requires below { AreViasBelow (length tables.now.draft.nodes) list.old.items }
    ensures value { OnOk result (list.new.items ≡ list.old.items ++ option_to_list (restriction_of
        (picked tables.now.draft.nodes order.now.places.items) tables.now.draft.ways
        (relation_at tables.now.draft.relations relation))) }
    ensures below { OnOk result (AreViasBelow (length tables.now.draft.nodes) list.new.items) }
{
    if let Some(one) = restriction(alloc, tables, order, relation)? {
        list.push(one)?;
    }
    Ok(())
}

/// The restrictions among the relations of the tables, in their order.
pub(crate) fn restrictions(
    alloc: Global,
    tables: &Tables,
    order: &NodeOrder,
) -> Result<Vec<Restriction>, AllocError>
    requires distinct { AreDistinct tables.now.draft.nodes }
    requires order { IsNodeOrder tables.now.draft.nodes order.now.places.items
        order.now.numbers.items }
    ensures exact { IfOk result (λ list. list.items ≡ restrictions_of
        (picked tables.now.draft.nodes order.now.places.items) tables.now.draft.ways
        tables.now.draft.relations) }
    ensures below { IfOk result (λ list. AreViasBelow (length tables.now.draft.nodes) list.items) }
{
    let mut list = Vec::new(alloc);
    'relations: for relation in 0..tables.relations() {
        add_restriction(alloc, tables, order, relation, &mut list)?;
    }
    Ok(list)
}
