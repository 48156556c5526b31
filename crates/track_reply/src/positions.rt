//! The positions of a track.

ghost use Rattle.std.specs.Prelude.{◌≡◌, ◌<◌, ◌++◌, length, Some, OnOk};
ghost use Rattle.std.specs.List.{flat_map};
ghost use Rattle.fixed_num.specs.Text.{mil6};
ghost use Rattle.geo_int.specs.Spot.{place_of};
ghost use Rattle.hgt_tiles.specs.Tiles.{height_of};
ghost use Rattle.track_reply.specs.GeoJson.{height_end, next_position, position_text, positions_behind, positions_text};
ghost use Rattle.track_reply.specs.Showable.{AreRowsBelow};
ghost use Rattle.track_reply.specs.Source.{end_spot, spot_of};

use crate::numbers::append_millionths;
use crate::rows::{end_spot, row_at};
use geo_int::{Spot, ele};
use hgt_tiles::Tiles;
use overpass_graph::Map;
use std::alloc::AllocError;
use track_legs::Row;

/// Appends the positions of a track that begins at a node.
#[tactic(auto, unfolding(crate::specs::GeoJson::positions_text))]
pub(crate) fn append_positions(
    out: &mut Vec<u8>,
    map: &Map,
    tiles: &Tiles,
    start: u32,
    rows: &[Row],
) -> Result<(), AllocError>
    requires start { start < length map.now.nodes }
    requires in_range { AreRowsBelow (length map.now.links) rows.now }
    ensures exact { OnOk result (out.new.items ≡ out.old.items
        ++ positions_text map.now (height_of tiles.now) (spot_of map.now start) rows.now) }
{
    let first = map.node_spot(start);
    append_position(out, tiles, first)?;
    append_behind(out, map, tiles, first, rows)
}

/// Appends the positions behind that of the first node.
fn append_behind(
    out: &mut Vec<u8>,
    map: &Map,
    tiles: &Tiles,
    first: Spot,
    rows: &[Row],
) -> Result<(), AllocError>
    requires in_range { AreRowsBelow (length map.now.links) rows.now }
    ensures exact { OnOk result (out.new.items ≡ out.old.items
        ++ positions_behind map.now (height_of tiles.now) (place_of first) rows.now) }
{
    if rows.len() == 0 {
        append_next(out, tiles, first)
    } else {
        append_ends(out, map, tiles, rows)
    }
}

/// Appends the positions of the ends of links, each behind a comma.
fn append_ends(out: &mut Vec<u8>, map: &Map, tiles: &Tiles, rows: &[Row]) -> Result<(), AllocError>
    requires in_range { AreRowsBelow (length map.now.links) rows.now }
    ensures exact { OnOk result (out.new.items ≡ out.old.items
        ++ flat_map (λ row. next_position (height_of tiles.now) (end_spot map.now row.link))
        rows.now) }
{
    'rows: for place in 0..rows.len() {
        append_next(out, tiles, end_spot(map, row_at(rows, place).link))?;
    }
    Ok(())
}

/// Appends the position of a place behind a comma.
fn append_next(out: &mut Vec<u8>, tiles: &Tiles, at: Spot) -> Result<(), AllocError>
    ensures exact { OnOk result (out.new.items ≡
        out.old.items ++ next_position (height_of tiles.now) (place_of at)) }
{
    out.extend_from_slice(b",")?;
    append_position(out, tiles, at)
}

/// Appends the position of a place.
#[tactic(auto, unfolding(crate::specs::GeoJson::position_text))]
pub fn append_position(out: &mut Vec<u8>, tiles: &Tiles, at: Spot) -> Result<(), AllocError>
    ensures exact { OnOk result (out.new.items ≡
        out.old.items ++ position_text (height_of tiles.now) (place_of at)) }
{
    out.extend_from_slice(b"[")?;
    append_degrees(out, at.lon())?;
    out.extend_from_slice(b",")?;
    append_degrees(out, at.lat())?;
    append_height_end(out, tiles.height(at))
}

/// Appends microdegrees as degrees.
fn append_degrees(out: &mut Vec<u8>, microdegrees: i64) -> Result<(), AllocError>
    ensures exact { OnOk result (out.new.items ≡ out.old.items ++ mil6 microdegrees) }
{
    append_millionths(out, i128::from(microdegrees))
}

/// Appends a height, if it is known, and the end of a position.
fn append_height_end(out: &mut Vec<u8>, height: Option<i64>) -> Result<(), AllocError>
    ensures exact { OnOk result (out.new.items ≡ out.old.items ++ height_end height) }
{
    match height {
        Some(height) => append_known(out, height),
        None => out.extend_from_slice(b"]"),
    }
}

/// Appends a height and the end of a position.
fn append_known(out: &mut Vec<u8>, height: i64) -> Result<(), AllocError>
    ensures exact { OnOk result (out.new.items ≡ out.old.items ++ height_end (Some height)) }
{
    out.extend_from_slice(b",")?;
    ele(out, height)?;
    out.extend_from_slice(b"]")
}
