//! The element that a list of steps stands for.
ghost use Rattle.std.specs.Prelude.{ℕ, zero, ℤ, ◌≡◌, length, IfSome, IsTrue, List, [], Result, Ok, Err, Some, None, MatchOption, MatchResult};
ghost use Rattle.item_list.specs.Answer.{Answers};
ghost use Rattle.geo_int.specs.Spot.{place_of};
ghost use Rattle.map_tables.specs.Kept.{Tag};
ghost use lib.Chars.{codes};
ghost use Rattle.map_tables.specs.declared.error.MapError.TheVariants.{NoMemory, Shape, BadCoordinate};
ghost use Rattle.map_elements.specs.Elements.{Node, element_of, element_by, node_of, node_at, way_of, relation_of, need};
ghost use Rattle.map_elements.specs.Entries.{entries_from, member};
ghost use Rattle.map_elements.specs.Front.{Fits, behind, told};
ghost use Rattle.map_elements.specs.declared.front.Front.TheVariants.{Lon};
ghost use Rattle.map_elements.specs.Fields.{with_some, text_of, whole_list_of, member_list_of, tags_of};
ghost use Rattle.map_elements.specs.Seen.{needed, seen};

use crate::fields::element::{ElementFields, Slots};
use crate::front::{ElementSteps, Front};
use crate::steps::StepList;
use crate::steps::part::{Part, closes};
use fixed_num::coord;
use geo_int::Spot;
use item_list::{Items, Tags};
use map_tables::{MapError, Member};
use std::alloc::Global;

/// How many steps are kept of a node that has no tags.
const SHORT: usize = 5;

/// An element of a map's text.
#[derive(Drop)]
pub enum Element {
    /// A place that ways go through.
    Node {
        /// Its id.
        id: i64,
        /// Where it is.
        spot: Spot,
        /// Its tags.
        tags: Tags,
    },
    /// A list of nodes.
    Way {
        /// Its id.
        id: i64,
        /// The ids of its nodes.
        nodes: Items<i64>,
        /// Its tags.
        tags: Tags,
    },
    /// A list of members with roles.
    Relation {
        /// Its id.
        id: i64,
        /// Its members.
        members: Items<Member>,
        /// Its tags.
        tags: Tags,
    },
    /// An element of another type, which is read past.
    Other,
}

/// The element that steps stand for, which is the element at this place of the text, from 1.
pub fn read_element(alloc: Global, at: u64, steps: &StepList) -> Result<Element, MapError>
    ensures exact { Answers seen (element_of at steps.now) NoMemory result }
{
    read_bare(alloc, at, &steps.part())
}

/// The element that the steps of a part stand for.
fn read_bare(alloc: Global, at: u64, steps: &Part) -> Result<Element, MapError>
    ensures exact { Answers seen (element_of at steps.now) NoMemory result }
{
    match steps.behind_open() {
        None => Err(MapError::Shape { place: at }),
        Some(left) => read_members_of(alloc, at, Front::Open, left),
    }
}

/// The element that the steps of an element that has ended stand for, at this place of the text.
pub(crate) fn read_ended(alloc: Global, at: u64, steps: &ElementSteps) -> Result<Element, MapError>
    ensures exact { Answers seen (element_of at steps.now) NoMemory result }
{
    let (front, left) = steps.kept();
    if let Some(node) = short_node(alloc, front, &left) {
        return node;
    }
    match front {
        Front::Bare => read_bare(alloc, at, &left),
        _ => read_members_of(alloc, at, front, left),
    }
}

/// The node that most elements are, of no more than four plain values; none where it is another
/// element or has the wrong shape.
fn short_node(alloc: Global, front: Front, left: &Part) -> Option<Result<Element, MapError>>
    requires fits { Fits front left.now }
    ensures exact { (at : ℕ) → IfSome result
        (λ node. Answers seen (element_of at (told front left.now)) NoMemory node) }
{
    match front {
        Front::Lon if left.len() == SHORT => read_short(alloc, left),
        _ => None,
    }
}

/// The node of four plain values and a bracket that closes, if that is what has come.
fn read_short(alloc: Global, left: &Part) -> Option<Result<Element, MapError>>
    requires fits { Fits Lon left.now }
    requires short { length left.now ≡ 5 }
    ensures exact { (at : ℕ) → IfSome result
        (λ node. Answers seen (element_of at (told Lon left.now)) NoMemory node) }
{
    let mut left = left.again();
    let kind = left.take_one();
    let id = left.take_one();
    let lat = left.take_one();
    let lon = left.take_one();
    if !is_node(&kind) || !is_last(&left) {
        return None;
    }
    let id = id.whole_number()?;
    let lat = lat.number()?;
    let lon = lon.number()?;
    Some(node_with(id, lat, lon, Items::new(alloc)))
}

/// Whether a value is the type of nodes.
fn is_node(kind: &Part) -> bool
    ensures value { IsTrue result → text_of kind.now ≡ Some (codes "node") }
{
    match kind.text() {
        None => false,
        Some(text) => text == b"node".as_slice(),
    }
}

/// Whether a bracket that closes comes first.
fn is_last(left: &Part) -> bool
    ensures value { IsTrue result → entries_from None [] zero left.now ≡ [] }
{
    match left.first_step() {
        None => false,
        Some(step) => closes(step),
    }
}

/// The element of the members among steps, of which the front tells the first names.
fn read_members_of(alloc: Global, at: u64, front: Front, left: Part) -> Result<Element, MapError>
    requires fits { Fits front left }
    ensures exact { let entries = entries_from None [] zero (behind front left.entry) in
        let type = with_some (member (codes "type") entries) text_of in
        Answers seen (need at type (λ type. element_by type at entries)) NoMemory result }
{
    let mut first = Slots::new();
    first.look_through(front, &left);
    read_typed(alloc, at, &ElementFields::new(front, left, &first))
}

/// The element of members, by its type.
fn read_typed(alloc: Global, at: u64, fields: &ElementFields) -> Result<Element, MapError>
    ensures exact { let type = with_some (member (codes "type") fields.now) text_of in
        Answers seen (need at type (λ type. element_by type at fields.now)) NoMemory result }
{
    let Some(kind) = fields.kind() else {
        return Err(MapError::Shape { place: at });
    };
    if kind == b"node".as_slice() {
        read_node(alloc, at, fields)
    } else if kind == b"way".as_slice() {
        read_way(alloc, at, fields)
    } else if kind == b"relation".as_slice() {
        read_relation(alloc, at, fields)
    } else {
        Ok(Element::Other)
    }
}

/// The node of members.
fn read_node(alloc: Global, at: u64, fields: &ElementFields) -> Result<Element, MapError>
    ensures exact { Answers seen (node_of at fields.now) NoMemory result }
{
    let Some(id) = fields.id() else {
        return Err(MapError::Shape { place: at });
    };
    let Some(lat) = fields.lat() else {
        return Err(MapError::Shape { place: at });
    };
    let Some(lon) = fields.lon() else {
        return Err(MapError::Shape { place: at });
    };
    let tags = read_tags(alloc, at, fields)?;
    node_with(id, lat, lon, tags)
}

/// The node of an id and of tags at the coordinates of two texts.
fn node_with(id: i64, lat: &[u8], lon: &[u8], tags: Tags) -> Result<Element, MapError>
    ensures exact { let node = node_at id tags lat.now lon.now in
        MatchResult result (λ element. node ≡ Ok (seen element)) (λ e. node ≡ Err e) }
{
    match spot_of(lat, lon) {
        Some(spot) => Ok(Element::Node { id, spot, tags }),
        None => Err(MapError::BadCoordinate { id }),
    }
}

/// The place at the coordinates of two texts, the latitude first.
fn spot_of(lat: &[u8], lon: &[u8]) -> Option<Spot>
    ensures exact { (id : ℤ) (tags : List Tag) → let node = node_at id tags lat.now lon.now in
        MatchOption result
        (node ≡ Err (BadCoordinate id))
        (λ spot. node
        ≡ Ok (Node (record { id = id; content = place_of spot; tags = tags }))) }
{
    let Ok(north) = coord(lat, 90_000_000) else {
        return None;
    };
    let Ok(east) = coord(lon, 180_000_000) else {
        return None;
    };
    match Spot::new(east, north) {
        Some(spot) => Some(spot),
        None => None,
    }
}

/// The way of members.
fn read_way(alloc: Global, at: u64, fields: &ElementFields) -> Result<Element, MapError>
    ensures exact { Answers seen (way_of at fields.now) NoMemory result }
{
    let Some(id) = fields.id() else {
        return Err(MapError::Shape { place: at });
    };
    let nodes = read_nodes(alloc, at, fields)?;
    let tags = read_tags(alloc, at, fields)?;
    Ok(Element::Way { id, nodes, tags })
}

/// The relation of members.
fn read_relation(alloc: Global, at: u64, fields: &ElementFields) -> Result<Element, MapError>
    ensures exact { Answers seen (relation_of at fields.now) NoMemory result }
{
    let Some(id) = fields.id() else {
        return Err(MapError::Shape { place: at });
    };
    let members = read_members(alloc, at, fields)?;
    let tags = read_tags(alloc, at, fields)?;
    Ok(Element::Relation { id, members, tags })
}

/// The tags among the members of an element.
fn read_tags(alloc: Global, at: u64, fields: &ElementFields) -> Result<Tags, MapError>
    ensures exact { Answers (λ tags. tags) (needed at (tags_of fields.now)) NoMemory result }
{
    let Some(value) = fields.tags() else {
        return Ok(Items::new(alloc));
    };
    match value.tags(alloc) {
        Ok(Some(tags)) => Ok(tags),
        Ok(None) => Err(MapError::Shape { place: at }),
        Err(_) => Err(MapError::NoMemory),
    }
}

/// The nodes among the members of a way.
fn read_nodes(alloc: Global, at: u64, fields: &ElementFields) -> Result<Items<i64>, MapError>
    ensures exact { let nodes = with_some (member (codes "nodes") fields.now) whole_list_of in
        Answers (λ nodes. nodes) (needed at nodes) NoMemory result }
{
    let Some(value) = fields.nodes() else {
        return Err(MapError::Shape { place: at });
    };
    match value.whole_list(alloc) {
        Ok(Some(nodes)) => Ok(nodes),
        Ok(None) => Err(MapError::Shape { place: at }),
        Err(_) => Err(MapError::NoMemory),
    }
}

/// The members among the members of a relation.
fn read_members(alloc: Global, at: u64, fields: &ElementFields) -> Result<Items<Member>, MapError>
    ensures exact { let list = with_some (member (codes "members") fields.now) member_list_of in
        Answers (λ members. members) (needed at list) NoMemory result }
{
    let Some(value) = fields.members() else {
        return Err(MapError::Shape { place: at });
    };
    match value.member_list(alloc) {
        Ok(Some(members)) => Ok(members),
        Ok(None) => Err(MapError::Shape { place: at }),
        Err(_) => Err(MapError::NoMemory),
    }
}
