//! The fields of rows.

ghost use Rattle.std.specs.Prelude.{◌≡◌, ◌<◌, ◌++◌, get_or, length, OnOk};
ghost use Rattle.fixed_num.specs.Text.{mil6};
ghost use Rattle.geo_int.specs.Spot.{place_of};
ghost use Rattle.hgt_tiles.specs.Tiles.{height_of};
ghost use Rattle.track_reply.specs.Joined.{behind, parted};
ghost use Rattle.track_reply.specs.Rows.{header_text, height_field, length_fields, part_fields, place_fields, row_text, separator_of, tag_fields, written};
ghost use Rattle.track_reply.specs.Showable.{no_row};
ghost use Rattle.track_reply.specs.Source.{end_spot, source_of};

use crate::escapes::append_escaped;
use crate::numbers::append_millionths;
use crate::shown::Shown;
use crate::style::Style;
use crate::tags::{node_field, way_field};
use cost_model::{FactsOf, LinkFacts, Parts};
use geo_int::{Spot, ele, mm3};
use hgt_tiles::Tiles;
use item_list::append_signed;
use lookup_table::Table;
use overpass_graph::Map;
use std::alloc::{AllocError, Global};
use track_legs::Row;

/// The header, as a row.
#[tactic(auto, unfolding(crate::specs::Rows::header_text))]
pub(crate) fn header(style: Style) -> &'static [u8]
    ensures exact { result.now ≡ header_text style }
{
    match style {
        Style::Lines => {
            b"Longitude\tLatitude\tElevation\tDistance\tCostPerKm\tElevCost\tTurnCost\tNodeCost\tInitialCost\tWayTags\tNodeTags"
        }
        Style::Json => {
            b"Longitude\",\"Latitude\",\"Elevation\",\"Distance\",\"CostPerKm\",\"ElevCost\",\"TurnCost\",\"NodeCost\",\"InitialCost\",\"WayTags\",\"NodeTags"
        }
    }
}

/// Appends the text of a row.
#[tactic(auto, unfolding(crate::specs::Rows::row_text, crate::specs::Rows::fields_of))]
pub(crate) fn append_row<F: FactsOf>(
    alloc: Global,
    out: &mut Vec<u8>,
    style: Style,
    shown: &Shown<F>,
    row: &Row,
) -> Result<(), AllocError>
    requires in_range { row.now.link < length shown.now.map.now.links }
    requires counted { row.now.link < (F.links shown.now.facts.now).count }
    ensures exact { let source = source_of shown.now.map.now shown.now.table.now shown.now.tiles.now
        (F.links shown.now.facts.now) shown.now.rates.now shown.now.name.now
        shown.now.alternative in
        OnOk result (out.new.items ≡ out.old.items ++ row_text style source row.now) }
{
    let link = row.link;
    let facts = shown.facts.facts(link);
    append_place(out, style, shown.tiles, end_spot(shown.map, link))?;
    append_length(out, style, &facts)?;
    append_parts(out, style, &row.parts)?;
    append_tags(
        alloc,
        out,
        style,
        shown.map,
        shown.table,
        link,
        facts.granted,
    )?;
    Ok(())
}

/// The row at a place.
#[tactic(auto, using(crate::proofs::BelowLemmas::at_default))]
pub(crate) fn row_at(rows: &[Row], place: usize) -> Row
    requires within { place < length rows.now }
    ensures exact { result ≡ get_or rows.now place no_row }
{
    rows[place]
}

/// Appends the fields of a place.
#[tactic(auto, unfolding(crate::specs::Rows::place_fields))]
fn append_place(out: &mut Vec<u8>, style: Style, tiles: &Tiles, at: Spot) -> Result<(), AllocError>
    ensures exact { OnOk result (out.new.items ≡
        out.old.items ++ parted (separator_of style)
        (place_fields (height_of tiles.now) (place_of at))) }
{
    append_signed(out, at.lon())?;
    append_separator(out, style)?;
    append_signed(out, at.lat())?;
    append_separator(out, style)?;
    append_height(out, tiles.height(at))
}

/// Where a link ends.
pub(crate) fn end_spot(map: &Map, link: u32) -> Spot
    requires in_range { link < length map.now.links }
    ensures exact { place_of result ≡ end_spot map.now link }
{
    let _ = map.links();
    map.node_spot(map.link(link).to)
}

/// Appends a height in metres, if it is known.
pub(crate) fn append_height(out: &mut Vec<u8>, height: Option<i64>) -> Result<(), AllocError>
    ensures exact { OnOk result (out.new.items ≡ out.old.items ++ height_field height) }
{
    match height {
        Some(height) => ele(out, height),
        None => Ok(()),
    }
}

/// Appends what stands between two fields.
fn append_separator(out: &mut Vec<u8>, style: Style) -> Result<(), AllocError>
    ensures exact { OnOk result (out.new.items ≡ out.old.items ++ separator_of style) }
{
    match style {
        Style::Lines => out.extend_from_slice(b"\t"),
        Style::Json => out.extend_from_slice(b"\",\""),
    }
}

/// Appends a link's length in metres and its costfactor in thousandths.
#[tactic(auto, unfolding(crate::specs::Rows::length_fields))]
fn append_length(out: &mut Vec<u8>, style: Style, facts: &LinkFacts) -> Result<(), AllocError>
    ensures exact { OnOk result (out.new.items ≡
        out.old.items ++ behind (separator_of style) (length_fields facts.now)) }
{
    append_separator(out, style)?;
    mm3(out, u128::from(facts.arrow.len))?;
    append_separator(out, style)?;
    append_signed(out, facts.costfactor.div_euclid(1000))
}

/// Appends the parts of what a link costs, but that of its distance.
#[tactic(auto, unfolding(crate::specs::Rows::part_fields))]
fn append_parts(out: &mut Vec<u8>, style: Style, parts: &Parts) -> Result<(), AllocError>
    ensures exact { OnOk result (out.new.items ≡
        out.old.items ++ behind (separator_of style) (part_fields parts.now)) }
{
    append_part(out, style, &parts.elevation)?;
    append_part(out, style, &parts.turn)?;
    append_part(out, style, &parts.node)?;
    append_part(out, style, &parts.initial)?;
    Ok(())
}

/// Appends a part behind a separator.
fn append_part(out: &mut Vec<u8>, style: Style, millionths: &i128) -> Result<(), AllocError>
    ensures exact { OnOk result (out.new.items ≡
        out.old.items ++ (separator_of style ++ mil6 millionths.now)) }
{
    append_separator(out, style)?;
    append_millionths(out, *millionths)
}

/// Appends the texts of the tags of a link's way and of its end.
#[tactic(auto, unfolding(crate::specs::Rows::tag_fields))]
fn append_tags(
    alloc: Global,
    out: &mut Vec<u8>,
    style: Style,
    map: &Map,
    table: &Table,
    link: u32,
    granted: bool,
) -> Result<(), AllocError>
    requires in_range { link < length map.now.links }
    ensures exact { OnOk result (out.new.items ≡ out.old.items
        ++ behind (separator_of style) (tag_fields style map.now table.now link granted)) }
{
    let way = way_field(alloc, map, table, link)?;
    append_written(out, style, way.as_slice())?;
    let node = node_field(alloc, map, table, link, granted)?;
    append_written(out, style, node.as_slice())
}

/// Appends a text of tags behind a separator.
fn append_written(out: &mut Vec<u8>, style: Style, text: &[u8]) -> Result<(), AllocError>
    ensures exact { OnOk result (out.new.items ≡
        out.old.items ++ (separator_of style ++ written style text.now)) }
{
    append_separator(out, style)?;
    match style {
        Style::Lines => out.extend_from_slice(text),
        Style::Json => append_escaped(out, text),
    }
}
