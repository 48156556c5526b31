//! The tags that route relations give to their ways.

ghost use Rattle.std.specs.Prelude.{◌≡◌, ◌<◌, length, IfErr, IfOk, MatchOption, None, OnOk, Some, slice_get, slice_set};
ghost use Rattle.map_tables.specs.Draft.{HasMember, HoldsAtMember};
ghost use Rattle.map_tables.specs.Kept.{with_tag};
ghost use Rattle.map_tables.specs.declared.error.MapError.TheVariants.{NoMemory};
ghost use Rattle.overpass_graph.specs.Members.{KeptWay, members_at, relation_at, tag_once, with_more_tags};
ghost use Rattle.overpass_graph.specs.RouteTags.{route_tag, tag_members, tag_of_route, with_route, with_routes};
ghost use lib.Chars.{codes};

use crate::members::way_of;
use crate::tag_values::value_of;
use item_list::{Items, Name, Tags};
use map_tables::{MapError, Tables};
use std::alloc::{AllocError, Global};

/// The name of the tag of a route of this kind in this network.
fn route_name(alloc: Global, route: &[u8], network: &[u8]) -> Result<Vec<u8>, AllocError>
    ensures exact { IfOk result (λ name. name.items ≡ (route_tag route.now network.now).0) }
{
    let mut name = Vec::from_slice(alloc, b"route_".as_slice())?;
    name.extend_from_slice(route)?;
    name.extend_from_slice(b"_".as_slice())?;
    name.extend_from_slice(network)?;
    Ok(name)
}

/// The name of the tag that the ways of a relation with these tags get, if they get one.
fn route_of(alloc: Global, tags: &Tags) -> Result<Option<Vec<u8>>, AllocError>
    ensures exact { IfOk result (λ found. MatchOption found (tag_of_route tags.now ≡ None)
        (λ name. tag_of_route tags.now ≡ Some (name.items, codes "yes"))) }
{
    let Some(kind) = value_of(tags, b"type".as_slice()) else {
        return Ok(None);
    };
    let Some(route) = value_of(tags, b"route".as_slice()) else {
        return Ok(None);
    };
    let Some(network) = value_of(tags, b"network".as_slice()) else {
        return Ok(None);
    };
    if kind != b"route".as_slice() {
        return Ok(None);
    }
    let name = route_name(alloc, route, network)?;
    Ok(Some(name))
}

/// A name of these bytes.
fn name_of(alloc: Global, bytes: &[u8]) -> Result<Name, AllocError>
    ensures exact { IfOk result (λ name. name ≡ bytes.now) }
{
    let items = Vec::from_slice(alloc, bytes)?;
    Ok(Items::from_vec(items))
}

/// Gives a way one more tag, of this name and the value `yes`.
fn tag_way(alloc: Global, tables: &mut Tables, way: u32, name: &[u8]) -> Result<(), MapError>
    requires fits { way < length tables.old.draft.ways }
    ensures value { (k : KeptWay) → slice_get tables.old.draft.ways way ≡ Some k →
        OnOk result (tables.new ≡ with_more_tags tables.old
        (slice_set tables.old.draft.ways way (with_tag (name.now, codes "yes") k))) }
    ensures refused { IfErr result (λ e. e ≡ NoMemory) }
{
    let Ok(name) = name_of(alloc, name) else {
        return Err(MapError::NoMemory);
    };
    let Ok(value) = name_of(alloc, b"yes".as_slice()) else {
        return Err(MapError::NoMemory);
    };
    tables.tag_way(way, name, value)
}

/// Gives the way that a member is one more tag of this name.
fn tag_member(
    alloc: Global,
    tables: &mut Tables,
    relation: u32,
    member: u32,
    name: &[u8],
) -> Result<(), MapError>
    requires fits { relation < length tables.old.draft.relations }
    requires among { HasMember tables.old.draft.relations relation member }
    ensures value { OnOk result (HoldsAtMember tables.old.draft.relations relation member
        (λ m. tables.new ≡ with_more_tags tables.old
        (tag_once (name.now, codes "yes") m tables.old.draft.ways))) }
    ensures refused { IfErr result (λ e. e ≡ NoMemory) }
{
    let _limits = tables.limits();
    match way_of(tables, relation, member) {
        None => Ok(()),
        Some(way) => tag_way(alloc, tables, way, name),
    }
}

/// Gives each way among the members of a relation one more tag of this name.
fn tag_ways(alloc: Global, tables: &mut Tables, relation: u32, name: &[u8]) -> Result<(), MapError>
    requires fits { relation < length tables.old.draft.relations }
    ensures value { OnOk result (tables.new ≡ with_more_tags tables.old
        (tag_members (name.now, codes "yes") (members_at tables.old.draft.relations relation)
        tables.old.draft.ways)) }
    ensures refused { IfErr result (λ e. e ≡ NoMemory) }
{
    'members: for member in 0..tables.members(relation) {
        tag_member(alloc, tables, relation, member, name)?;
    }
    Ok(())
}

/// Gives the ways of a relation its tag, where it gives one.
fn tag_route(alloc: Global, tables: &mut Tables, relation: u32) -> Result<(), MapError>
    requires fits { relation < length tables.old.draft.relations }
    ensures value { let r = relation_at tables.old.draft.relations relation in
        OnOk result (tables.new ≡
        with_more_tags tables.old
        (with_route (tag_of_route r.tags) r.content tables.old.draft.ways)) }
    ensures refused { IfErr result (λ e. e ≡ NoMemory) }
{
    let Ok(found) = route_of(alloc, tables.relation_tags(relation)) else {
        return Err(MapError::NoMemory);
    };
    match found {
        None => Ok(()),
        Some(name) => tag_ways(alloc, tables, relation, name.as_slice()),
    }
}

/// Gives all ways the tags of their routes.
pub(crate) fn tag_routes(alloc: Global, tables: &mut Tables) -> Result<(), MapError>
    ensures value { OnOk result (tables.new ≡ with_more_tags tables.old
        (with_routes tables.old.draft.relations tables.old.draft.ways)) }
    ensures refused { IfErr result (λ e. e ≡ NoMemory) }
{
    'relations: for relation in 0..tables.relations() {
        tag_route(alloc, tables, relation)?;
    }
    Ok(())
}
