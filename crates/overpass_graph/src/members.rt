//! The ways and the node that the members of a relation stand for.

ghost use Rattle.std.specs.Prelude.{◌≡◌, ◌<◌, ◌++◌, [], ◌∷◌, length, IfOk, IfSome, OnOk};
ghost use Rattle.std.specs.Str.{bytes_eq};
ghost use Rattle.map_tables.specs.Draft.{HasMember, HoldsAtMember};
ghost use Rattle.overpass_graph.specs.Restrictions.{in_role, via_of, way_of as way_of_member, ways_of};
ghost use Rattle.map_tables.specs.Kept.{AreDistinct};
ghost use Rattle.overpass_graph.specs.Members.{IsNext, members_at, node_of as node_of_member};
ghost use Rattle.overpass_graph.specs.Orders.{IsNodeOrder, picked};

use crate::order::NodeOrder;
use crate::rows::number_of;
use map_tables::Tables;
use std::alloc::{AllocError, Global};

/// The way of the map that a member is.
pub(crate) fn way_of(tables: &Tables, relation: u32, member: u32) -> Option<u32>
    requires fits { relation < length tables.now.draft.relations }
    requires among { HasMember tables.now.draft.relations relation member }
    ensures value { HoldsAtMember tables.now.draft.relations relation member
        (λ m. result ≡ way_of_member tables.now.draft.ways m) }
    ensures within { IfSome result (λ way. way < length tables.now.draft.ways) }
{
    let found = tables.member(relation, member);
    if found.kind != b"way".as_slice() {
        return None;
    }
    tables.find_way(found.reference)
}

/// Whether a member has this role.
fn has_role(tables: &Tables, relation: u32, member: u32, role: &[u8]) -> bool
    requires fits { relation < length tables.now.draft.relations }
    requires among { HasMember tables.now.draft.relations relation member }
    ensures value { HoldsAtMember tables.now.draft.relations relation member
        (λ m. result ≡ bytes_eq m.role role.now) }
{
    tables.member(relation, member).role == role
}

/// Adds the way that a member of this role is.
fn add_way(
    tables: &Tables,
    relation: u32,
    member: u32,
    role: &[u8],
    ways: &mut Vec<u32>,
) -> Result<(), AllocError>
    requires fits { relation < length tables.now.draft.relations }
    requires among { HasMember tables.now.draft.relations relation member }
    ensures value { OnOk result (HoldsAtMember tables.now.draft.relations relation member
        (λ m. ways.new.items ≡ ways.old.items ++
        ways_of tables.now.draft.ways (in_role role.now (m ∷ [])))) }
{
    if !has_role(tables, relation, member, role) {
        return Ok(());
    }
    if let Some(way) = way_of(tables, relation, member) {
        ways.push(way)?;
    }
    Ok(())
}

/// The ways of the map among the members of this role, in their order.
pub(crate) fn ways_in_role(
    alloc: Global,
    tables: &Tables,
    relation: u32,
    role: &[u8],
) -> Result<Vec<u32>, AllocError>
    requires fits { relation < length tables.now.draft.relations }
    ensures exact { IfOk result (λ ways. ways.items
        ≡ ways_of tables.now.draft.ways
        (in_role role.now (members_at tables.now.draft.relations relation))) }
{
    let mut ways = Vec::new(alloc);
    'members: for member in 0..tables.members(relation) {
        add_way(tables, relation, member, role, &mut ways)?;
    }
    Ok(ways)
}

/// The next member of this role from a member on.
fn next_in_role(tables: &Tables, relation: u32, from: u32, role: &[u8]) -> Option<u32>
    requires fits { relation < length tables.now.draft.relations }
    ensures value { IsNext role.now (members_at tables.now.draft.relations relation) from result }
{
    'members: for member in from..tables.members(relation) {
        if has_role(tables, relation, member, role) {
            return Some(member);
        }
    }
    None
}

/// The node of the map that a member is.
fn node_of(tables: &Tables, order: &NodeOrder, relation: u32, member: u32) -> Option<u32>
    requires fits { relation < length tables.now.draft.relations }
    requires among { HasMember tables.now.draft.relations relation member }
    requires distinct { AreDistinct tables.now.draft.nodes }
    requires order { IsNodeOrder tables.now.draft.nodes order.now.places.items
        order.now.numbers.items }
    ensures value { HoldsAtMember tables.now.draft.relations relation member
        (λ m. result ≡ node_of_member (picked tables.now.draft.nodes order.now.places.items) m) }
    ensures within { IfSome result (λ node. node < length tables.now.draft.nodes) }
{
    let found = tables.member(relation, member);
    if found.kind != b"node".as_slice() {
        return None;
    }
    number_of(tables, order, found.reference)
}

/// The node of the map that the only member with the role `via` is.
pub(crate) fn via_node(tables: &Tables, order: &NodeOrder, relation: u32) -> Option<u32>
    requires fits { relation < length tables.now.draft.relations }
    requires distinct { AreDistinct tables.now.draft.nodes }
    requires order { IsNodeOrder tables.now.draft.nodes order.now.places.items
        order.now.numbers.items }
    ensures value { result ≡ via_of (picked tables.now.draft.nodes order.now.places.items)
        (members_at tables.now.draft.relations relation) }
    ensures within { IfSome result (λ node. node < length tables.now.draft.nodes) }
{
    let count = tables.members(relation);
    let Some(first) = next_in_role(tables, relation, 0, b"via".as_slice()) else {
        return None;
    };
    if first >= count {
        return None;
    }
    match next_in_role(tables, relation, first + 1, b"via".as_slice()) {
        Some(_) => None,
        None => node_of(tables, order, relation, first),
    }
}
