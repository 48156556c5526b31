//! The steps of walks as fields.

ghost use Rattle.std.specs.Prelude.{◌≡◌, ◌<◌, ◌∷◌, ◌++◌, length, OnOk};
ghost use Rattle.track_legs.specs.Rows.{AreBelow};
ghost use Rattle.track_reply.specs.Joined.{tab};
ghost use Rattle.track_reply.specs.Steps.{direction_letter, step_field, walk_fields, way_id_of};

use item_list::{append_number, append_signed};
use overpass_graph::{Link, Map};
use std::alloc::AllocError;

/// Appends a field for each link of a walk, each behind a tabulator.
#[tactic(auto, unfolding(crate::specs::Steps::walk_fields))]
pub(crate) fn append_fields(out: &mut Vec<u8>, map: &Map, walk: &[u32]) -> Result<(), AllocError>
    requires in_range { AreBelow (length map.now.links) walk.now }
    ensures exact { OnOk result (out.new.items ≡ out.old.items ++ walk_fields map.now walk.now) }
{
    'links: for place in 0..walk.len() {
        append_field(out, map, walk[place])?;
    }
    Ok(())
}

/// Appends the field of a link behind a tabulator.
#[tactic(auto, unfolding(crate::specs::Steps::step_field))]
fn append_field(out: &mut Vec<u8>, map: &Map, link: u32) -> Result<(), AllocError>
    requires in_range { link < length map.now.links }
    ensures exact { OnOk result (out.new.items ≡ out.old.items ++
        (tab ++ step_field map.now link)) }
{
    let taken = map.link(link);
    out.push(b'\t')?;
    append_way_id(out, map, link)?;
    out.push(b'/')?;
    append_number(out, u64::from(taken.segment))?;
    out.extend_from_slice(direction(&taken))
}

/// Appends the id of a link's way.
pub(crate) fn append_way_id(out: &mut Vec<u8>, map: &Map, link: u32) -> Result<(), AllocError>
    requires in_range { link < length map.now.links }
    ensures exact { OnOk result (out.new.items ≡ out.old.items ++ way_id_of map.now link) }
{
    let _ = map.links();
    append_signed(out, map.way_id(map.link(link).way))
}

/// A link's direction, behind a slash.
fn direction(link: &Link) -> &'static [u8]
    ensures exact { result.now ≡ 47 ∷ direction_letter link.now.back }
{
    if link.back { b"/b" } else { b"/f" }
}
