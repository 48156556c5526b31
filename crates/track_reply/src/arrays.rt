//! Walks as arrays.

ghost use Rattle.std.specs.Prelude.{◌≡◌, ◌<◌, ◌++◌, length, OnOk};
ghost use Rattle.std.specs.List.{join_by};
ghost use Rattle.track_legs.specs.Rows.{AreBelow};
ghost use Rattle.track_reply.specs.Earlier.{walks_of};
ghost use Rattle.track_reply.specs.GeoJson.{alternative_array, direction_end, earlier_text, legs_text, step_array, walk_array};
ghost use Rattle.track_reply.specs.Joined.{comma};
ghost use Rattle.track_reply.specs.Showable.{AreAlternativesBelow, AreLegsBelow};

use crate::earlier::{alternatives, walk_at};
use crate::numbers::append_comma;
use crate::steps::append_way_id;
use item_list::{Items, append_number};
use overpass_graph::{Link, Map};
use std::alloc::AllocError;
use track_legs::Leg;

/// Appends the walks of legs.
#[tactic(auto, unfolding(crate::specs::GeoJson::legs_text))]
pub(crate) fn append_legs(out: &mut Vec<u8>, map: &Map, legs: &[Leg]) -> Result<(), AllocError>
    requires in_range { AreLegsBelow (length map.now.links) legs.now }
    ensures exact { OnOk result (out.new.items ≡ out.old.items ++ legs_text map.now legs.now) }
{
    'legs: for place in 0..legs.len() {
        append_comma(out, place)?;
        append_walk(out, map, legs[place].links.as_slice())?;
    }
    Ok(())
}

/// Appends the earlier alternatives.
#[tactic(auto, unfolding(crate::specs::GeoJson::earlier_text))]
pub(crate) fn append_earlier(
    out: &mut Vec<u8>,
    map: &Map,
    earlier: &[Items<Items<u32>>],
) -> Result<(), AllocError>
    requires in_range { AreAlternativesBelow (length map.now.links) earlier.now }
    ensures exact { OnOk result (out.new.items ≡ out.old.items ++
        earlier_text map.now earlier.now) }
{
    let count = alternatives(earlier);
    'alternatives: for number in 0..count {
        append_comma(out, number)?;
        append_alternative(out, map, earlier, number)?;
    }
    Ok(())
}

/// Appends an earlier alternative.
#[tactic(auto, unfolding(crate::specs::GeoJson::alternative_array))]
fn append_alternative(
    out: &mut Vec<u8>,
    map: &Map,
    earlier: &[Items<Items<u32>>],
    number: usize,
) -> Result<(), AllocError>
    requires in_range { AreAlternativesBelow (length map.now.links) earlier.now }
    ensures exact { OnOk result (out.new.items ≡ out.old.items ++
        alternative_array map.now (walks_of earlier.now number)) }
{
    out.extend_from_slice(b"[")?;
    append_walks(out, map, earlier, number)?;
    out.extend_from_slice(b"]")
}

/// Appends the walks of an earlier alternative.
fn append_walks(
    out: &mut Vec<u8>,
    map: &Map,
    earlier: &[Items<Items<u32>>],
    number: usize,
) -> Result<(), AllocError>
    requires in_range { AreAlternativesBelow (length map.now.links) earlier.now }
    ensures exact { OnOk result (out.new.items ≡
        out.old.items ++ join_by (walk_array map.now) comma (walks_of earlier.now number)) }
{
    'legs: for leg in 0..earlier.len() {
        append_comma(out, leg)?;
        append_walk(out, map, walk_at(earlier, leg, number))?;
    }
    Ok(())
}

/// Appends a walk.
#[tactic(auto, unfolding(crate::specs::GeoJson::walk_array))]
fn append_walk(out: &mut Vec<u8>, map: &Map, walk: &[u32]) -> Result<(), AllocError>
    requires in_range { AreBelow (length map.now.links) walk.now }
    ensures exact { OnOk result (out.new.items ≡ out.old.items ++ walk_array map.now walk.now) }
{
    out.extend_from_slice(b"[")?;
    append_steps(out, map, walk)?;
    out.extend_from_slice(b"]")
}

/// Appends the links of a walk.
fn append_steps(out: &mut Vec<u8>, map: &Map, walk: &[u32]) -> Result<(), AllocError>
    requires in_range { AreBelow (length map.now.links) walk.now }
    ensures exact { OnOk result (out.new.items ≡
        out.old.items ++ join_by (step_array map.now) comma walk.now) }
{
    'links: for place in 0..walk.len() {
        append_comma(out, place)?;
        append_step(out, map, walk[place])?;
    }
    Ok(())
}

/// Appends a link.
#[tactic(auto, unfolding(crate::specs::GeoJson::step_array))]
fn append_step(out: &mut Vec<u8>, map: &Map, link: u32) -> Result<(), AllocError>
    requires in_range { link < length map.now.links }
    ensures exact { OnOk result (out.new.items ≡ out.old.items ++ step_array map.now link) }
{
    let taken = map.link(link);
    out.extend_from_slice(b"[")?;
    append_way_id(out, map, link)?;
    out.extend_from_slice(b",")?;
    append_number(out, u64::from(taken.segment))?;
    out.extend_from_slice(direction_end(&taken))
}

/// A link's direction, and the end of its array.
fn direction_end(link: &Link) -> &'static [u8]
    ensures exact { result.now ≡ direction_end link.now.back }
{
    if link.back { b",1]" } else { b",0]" }
}
