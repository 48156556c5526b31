//! Maps and faults as text.

ghost use Rattle.std.specs.Prelude.{◌<◌, length};

use item_list::Tags;
use overpass_graph::{ElementKind, Map, MapCount, MapError};
use std::alloc::{AllocError, Global};
use std::str;

/// The word of a kind of elements.
fn kind_word(kind: ElementKind) -> &'static str {
    match kind {
        ElementKind::Node => "node",
        ElementKind::Way => "way",
        ElementKind::Relation => "relation",
    }
}

/// The word of what there are too many of.
fn count_word(what: MapCount) -> &'static str {
    match what {
        MapCount::Nodes => "nodes",
        MapCount::Ways => "ways",
        MapCount::Segments => "segments",
        MapCount::Members => "members",
    }
}

/// A fault as text.
pub(crate) fn fault_text(alloc: Global, fault: MapError) -> Result<String, AllocError> {
    match fault {
        MapError::NotJson { at } => format!(in alloc; "not JSON at {at}"),
        MapError::Shape { place } => format!(in alloc; "shape {place}"),
        MapError::BadCoordinate { id } => format!(in alloc; "bad coordinate {id}"),
        MapError::DoubleId { kind, id } => format!(in alloc; "double {} {id}", kind_word(kind)),
        MapError::TooLarge { what } => format!(in alloc; "too many {}", count_word(what)),
        MapError::MissingNode { way, node } => format!(in alloc; "way {way} lacks node {node}"),
        MapError::NoMemory => String::from_str(alloc, "no memory"),
    }
}

/// Bytes as text; nothing where they are none.
fn text(bytes: &[u8]) -> &str {
    match str::from_utf8(bytes) {
        Ok(text) => text,
        Err(_) => "",
    }
}

/// Appends tags in their order.
fn show_tags(told: &mut String, tags: &Tags) -> Result<(), AllocError> {
    told.push_str("{")?;
    for (at, tag) in tags.as_slice().iter().enumerate() {
        if at > 0 {
            told.push_str(",")?;
        }
        told.push_str(text(tag.0.as_slice()))?;
        told.push_str("=")?;
        told.push_str(text(tag.1.as_slice()))?;
    }
    told.push_str("}")
}

/// Appends the nodes.
fn show_nodes(told: &mut String, map: &Map) -> Result<(), AllocError> {
    for node in 0..map.nodes() {
        let spot = map.node_spot(node);
        write!(
            told,
            " n{}:{},{}",
            map.node_id(node),
            spot.lon(),
            spot.lat()
        )?;
        show_tags(told, map.node_tags(node))?;
    }
    Ok(())
}

/// Appends the ways.
fn show_ways(told: &mut String, map: &Map) -> Result<(), AllocError> {
    for way in 0..map.ways() {
        write!(told, " w{}", map.way_id(way))?;
        show_tags(told, map.way_tags(way))?;
    }
    Ok(())
}

/// Appends the links.
fn show_links(told: &mut String, map: &Map) -> Result<(), AllocError> {
    for number in 0..map.links() {
        let link = map.link(number);
        let side = if link.back { "b" } else { "f" };
        write!(
            told,
            " l{}-{}/{}.{}{side}",
            link.from, link.to, link.way, link.segment
        )?;
    }
    Ok(())
}

/// Appends the links that leave each node that has some.
fn show_out_links(told: &mut String, map: &Map) -> Result<(), AllocError> {
    for node in 0..map.nodes() {
        for (at, link) in map.out_links(node).iter().enumerate() {
            if at == 0 {
                write!(told, " o{node}:{link}")?;
            } else {
                write!(told, ",{link}")?;
            }
        }
    }
    Ok(())
}

/// Appends the turns that are forbidden after a link.
fn show_turns_after(told: &mut String, map: &Map, first: u32) -> Result<(), AllocError>
    requires in_range { first < length map.now.links }
{
    for second in 0..map.links() {
        if map.link(second).from == map.link(first).to && map.forbids(first, second) {
            write!(told, " x{first},{second}")?;
        }
    }
    Ok(())
}

/// Appends all of a map, each part behind a space.
fn show(told: &mut String, map: &Map) -> Result<(), AllocError> {
    show_nodes(told, map)?;
    show_ways(told, map)?;
    show_links(told, map)?;
    show_out_links(told, map)?;
    for first in 0..map.links() {
        show_turns_after(told, map, first)?;
    }
    Ok(())
}

/// A map as text.
pub(crate) fn map_text(alloc: Global, map: &Map) -> Result<String, AllocError> {
    let mut told = String::new(alloc);
    show(&mut told, map)?;
    if told.is_empty() {
        return String::from_str(alloc, "(empty)");
    }
    String::from_str(alloc, told.as_str().trim_start_matches(' '))
}

/// How much a map has.
pub(crate) fn counts_of(alloc: Global, map: &Map) -> Result<String, AllocError> {
    let node_tags = if map.nodes() > 0 {
        map.node_tags(0).len()
    } else {
        0
    };
    let way_tags = if map.ways() > 0 {
        map.way_tags(0).len()
    } else {
        0
    };
    format!(in alloc;
        "{} nodes, {} ways, {} links, {node_tags} tags, {way_tags} tags",
        map.nodes(),
        map.ways(),
        map.links()
    )
}
