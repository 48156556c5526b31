//! The texts of tags.

ghost use Rattle.std.specs.Prelude.{◌≡◌, ◌<◌, ◌≤◌, cond, length, set, IfOk};
ghost use Rattle.lookup_table.specs.First.{rows_of};
ghost use Rattle.lookup_table.specs.Numbers.{AreNumbersOf};
ghost use Rattle.track_reply.specs.Tags.{node_field, node_text, way_field, way_text};

use lookup_table::{Part, Table, Tags, is_any_set, set_first};
use overpass_graph::Map;
use std::alloc::{AllocError, Global};

/// The text of the tags of a link's way, in the link's direction.
#[tactic(auto, unfolding(crate::specs::Tags::way_field))]
pub(crate) fn way_field(
    alloc: Global,
    map: &Map,
    table: &Table,
    link: u32,
) -> Result<Vec<u8>, AllocError>
    requires in_range { link < length map.now.links }
    ensures exact { IfOk result (λ text. text.items ≡ way_field map.now table.now link) }
{
    let _ = map.links();
    let taken = map.link(link);
    way_text(alloc, table, map.way_tags(taken.way), taken.back)
}

/// The text of the tags of the node at a link's end, whose way grants access or doesn't.
#[tactic(auto, unfolding(crate::specs::Tags::node_field))]
pub(crate) fn node_field(
    alloc: Global,
    map: &Map,
    table: &Table,
    link: u32,
    granted: bool,
) -> Result<Vec<u8>, AllocError>
    requires in_range { link < length map.now.links }
    ensures exact { IfOk result (λ text. text.items ≡ node_field map.now table.now link granted) }
{
    let _ = map.links();
    node_text(alloc, table, map.node_tags(map.link(link).to), granted)
}

/// The text of a way's tags, taken backward or forward.
#[tactic(auto, unfolding(crate::specs::Tags::way_text))]
fn way_text(alloc: Global, table: &Table, tags: &Tags, back: bool) -> Result<Vec<u8>, AllocError>
    ensures exact { IfOk result (λ text. text.items ≡ way_text table.now tags.now back) }
{
    let mut numbers = table.encode(alloc, Part::Way, tags)?;
    set_routed(table, Part::Way, &mut numbers, back);
    table.print(alloc, Part::Way, numbers.as_slice())
}

/// The text of a node's tags, reached by a way that grants access or doesn't.
#[tactic(auto, unfolding(crate::specs::Tags::node_text))]
fn node_text(
    alloc: Global,
    table: &Table,
    tags: &Tags,
    granted: bool,
) -> Result<Vec<u8>, AllocError>
    ensures exact { IfOk result (λ text. text.items ≡ node_text table.now tags.now granted) }
{
    let mut numbers = table.encode(alloc, Part::Node, tags)?;
    if !is_any_set(numbers.as_slice()) {
        return Ok(Vec::new(alloc));
    }
    set_routed(table, Part::Node, &mut numbers, granted);
    table.print(alloc, Part::Node, numbers.as_slice())
}

/// Sets the first of the numbers of a part's tags to that of `yes`, or to none.
fn set_routed(table: &Table, part: Part, numbers: &mut Vec<u16>, is_set: bool)
    requires fits { AreNumbersOf (rows_of table.now part) numbers.old.items }
    ensures value { numbers.new.items ≡ set numbers.old.items 0 (cond is_set 2 0) }
    ensures fits { AreNumbersOf (rows_of table.now part) numbers.new.items }
{
    let _ = table.tags(part);
    set_first(numbers, first_number(is_set));
}

/// The number of a first tag that is set, or isn't.
fn first_number(is_set: bool) -> u16
    ensures exact { result ≡ cond is_set 2 0 }
    ensures fits { result ≤ 2 }
{
    if is_set { 2 } else { 0 }
}
