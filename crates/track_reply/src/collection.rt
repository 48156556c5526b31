//! The reply as GeoJSON on one line.

ghost use Rattle.std.specs.Prelude.{◌≡◌, ◌<◌, ◌^◌, ◌++◌, IfOk, OnOk, length};
ghost use Rattle.std.specs.List.{flat_map};
ghost use Rattle.hgt_tiles.specs.Tiles.{height_of};
ghost use Rattle.track_legs.specs.Tracks.{node_at};
ghost use Rattle.track_reply.specs.GeoJson.{cost_part, earlier_part, geojson_of, legs_part, length_part, line_text, messages_part, name_head, name_part, rank_part, row_array, sums_part, walks_part};
ghost use Rattle.track_reply.specs.Showable.{AreAlternativesBelow, AreLegsBelow, AreRowsBelow, IsShowable};
ghost use Rattle.track_reply.specs.Source.{source_of, spot_of};
ghost use Rattle.track_legs.specs.Sums.{total_cost, total_rank};

use crate::arrays::{append_earlier, append_legs};
use crate::escapes::append_escaped;
use crate::numbers::append_sum;
use crate::positions::append_positions;
use crate::rows::{append_row, header, row_at};
use crate::shown::Shown;
use crate::style::Style;
use crate::sums::total_length;
use cost_model::FactsOf;
use geo_int::mm3;
use hgt_tiles::Tiles;
use item_list::{Name, append_number};
use overpass_graph::Map;
use std::alloc::{AllocError, Global};
use track_legs::{Leg, Row, Track, rows, total_cost, total_rank};

/// A track as GeoJSON on one line: its length, cost and rank, a row for each link, the walks of its
/// legs and of those of earlier alternatives, and its positions.
#[tactic(auto, unfolding(crate::specs::GeoJson::geojson_of))]
pub fn geojson<F: FactsOf>(
    alloc: Global,
    shown: &Shown<F>,
    track: &Track,
) -> Result<Vec<u8>, AllocError>
    requires lawful { let source =
        source_of shown.now.map.now shown.now.table.now shown.now.tiles.now
        (F.links shown.now.facts.now) shown.now.rates.now shown.now.name.now
        shown.now.alternative in
        IsShowable source track.now }
    ensures exact { let source = source_of shown.now.map.now shown.now.table.now shown.now.tiles.now
        (F.links shown.now.facts.now) shown.now.rates.now shown.now.name.now
        shown.now.alternative in
        IfOk result (λ bytes. bytes.items ≡ geojson_of source track.now) }
{
    let rows = rows(alloc, track, shown.facts, shown.rates)?;
    let mut out = Vec::new(alloc);
    append_name(&mut out, shown.name, shown.alternative)?;
    append_sums(
        &mut out,
        total_length(shown.facts, rows.as_slice()),
        track.legs.as_slice(),
    )?;
    append_messages(alloc, &mut out, shown, rows.as_slice())?;
    append_walks(&mut out, shown.map, track)?;
    append_line(
        &mut out,
        shown.map,
        shown.tiles,
        first_node(track),
        rows.as_slice(),
    )?;
    Ok(out)
}

/// Appends what stands up to the name: that of the profile, and the number of the alternative.
#[tactic(auto, unfolding(crate::specs::GeoJson::name_part))]
fn append_name(out: &mut Vec<u8>, name: &Name, alternative: u8) -> Result<(), AllocError>
    ensures exact { OnOk result (out.new.items ≡ out.old.items ++ name_part name.now alternative) }
{
    out.extend_from_slice(name_head())?;
    append_escaped(out, name.as_slice())?;
    out.extend_from_slice(b"_")?;
    append_number(out, u64::from(alternative))
}

/// What stands before the name.
#[tactic(auto, unfolding(crate::specs::GeoJson::name_head))]
fn name_head() -> &'static [u8]
    ensures exact { result.now ≡ name_head }
{
    b"{\"type\":\"FeatureCollection\",\"features\":[{\"type\":\"Feature\",\"properties\":{\"creator\":\"route_serve\",\"name\":\""
}

/// Appends the length of all links, and the cost and the rank of all legs.
#[tactic(auto, unfolding(crate::specs::GeoJson::sums_part))]
fn append_sums(out: &mut Vec<u8>, length: u128, legs: &[Leg]) -> Result<(), AllocError>
    requires costs { total_cost legs.now < 2 ^ 127 }
    requires ranks { total_rank legs.now < 2 ^ 127 }
    ensures exact { OnOk result (out.new.items ≡ out.old.items ++ sums_part length legs.now) }
{
    append_length(out, length)?;
    append_cost(out, legs)?;
    append_rank(out, legs)
}

/// Appends the length of all links.
#[tactic(auto, unfolding(crate::specs::GeoJson::length_part))]
fn append_length(out: &mut Vec<u8>, length: u128) -> Result<(), AllocError>
    ensures exact { OnOk result (out.new.items ≡ out.old.items ++ length_part length) }
{
    out.extend_from_slice(b"\",\"track-length\":\"")?;
    mm3(out, length)?;
    Ok(())
}

/// Appends the cost of all legs.
#[tactic(auto, unfolding(crate::specs::GeoJson::cost_part))]
fn append_cost(out: &mut Vec<u8>, legs: &[Leg]) -> Result<(), AllocError>
    requires fits { total_cost legs.now < 2 ^ 127 }
    ensures exact { OnOk result (out.new.items ≡ out.old.items ++ cost_part legs.now) }
{
    out.extend_from_slice(b"\",\"cost\":\"")?;
    append_sum(out, total_cost(legs))
}

/// Appends the rank of all legs.
#[tactic(auto, unfolding(crate::specs::GeoJson::rank_part))]
fn append_rank(out: &mut Vec<u8>, legs: &[Leg]) -> Result<(), AllocError>
    requires fits { total_rank legs.now < 2 ^ 127 }
    ensures exact { OnOk result (out.new.items ≡ out.old.items ++ rank_part legs.now) }
{
    out.extend_from_slice(b"\",\"rank\":\"")?;
    append_sum(out, total_rank(legs))
}

/// Appends the rows, the header first.
#[tactic(auto, unfolding(crate::specs::GeoJson::messages_part))]
fn append_messages<F: FactsOf>(
    alloc: Global,
    out: &mut Vec<u8>,
    shown: &Shown<F>,
    rows: &[Row],
) -> Result<(), AllocError>
    requires in_range { AreRowsBelow (length shown.now.map.now.links) rows.now }
    requires counted { (F.links shown.now.facts.now).count ≡ length shown.now.map.now.links }
    ensures exact { let source = source_of shown.now.map.now shown.now.table.now shown.now.tiles.now
        (F.links shown.now.facts.now) shown.now.rates.now shown.now.name.now
        shown.now.alternative in
        OnOk result (out.new.items ≡ out.old.items ++ messages_part source rows.now) }
{
    out.extend_from_slice(b"\",\"messages\":[[\"")?;
    out.extend_from_slice(header(Style::Json))?;
    out.extend_from_slice(b"\"]")?;
    append_rows(alloc, out, shown, rows)
}

/// Appends rows, each behind a comma.
fn append_rows<F: FactsOf>(
    alloc: Global,
    out: &mut Vec<u8>,
    shown: &Shown<F>,
    rows: &[Row],
) -> Result<(), AllocError>
    requires in_range { AreRowsBelow (length shown.now.map.now.links) rows.now }
    requires counted { (F.links shown.now.facts.now).count ≡ length shown.now.map.now.links }
    ensures exact { let source = source_of shown.now.map.now shown.now.table.now shown.now.tiles.now
        (F.links shown.now.facts.now) shown.now.rates.now shown.now.name.now
        shown.now.alternative in
        OnOk result (out.new.items ≡ out.old.items ++ flat_map (row_array source) rows.now) }
{
    'rows: for place in 0..rows.len() {
        append_array(alloc, out, shown, &row_at(rows, place))?;
    }
    Ok(())
}

/// Appends a row behind a comma.
fn append_array<F: FactsOf>(
    alloc: Global,
    out: &mut Vec<u8>,
    shown: &Shown<F>,
    row: &Row,
) -> Result<(), AllocError>
    requires in_range { row.now.link < length shown.now.map.now.links }
    requires counted { row.now.link < (F.links shown.now.facts.now).count }
    ensures exact { let source = source_of shown.now.map.now shown.now.table.now shown.now.tiles.now
        (F.links shown.now.facts.now) shown.now.rates.now shown.now.name.now
        shown.now.alternative in
        OnOk result (out.new.items ≡ out.old.items ++ row_array source row.now) }
{
    out.extend_from_slice(b",[\"")?;
    append_row(alloc, out, Style::Json, shown, row)?;
    out.extend_from_slice(b"\"]")
}

/// Appends the walks of the legs and of earlier alternatives.
#[tactic(auto, unfolding(crate::specs::GeoJson::walks_part))]
fn append_walks(out: &mut Vec<u8>, map: &Map, track: &Track) -> Result<(), AllocError>
    requires legs { AreLegsBelow (length map.now.links) track.now.legs }
    requires earlier { AreAlternativesBelow (length map.now.links) track.now.earlier }
    ensures exact { OnOk result (out.new.items ≡ out.old.items ++ walks_part map.now track.now) }
{
    append_legs_part(out, map, track)?;
    append_earlier_part(out, map, track)
}

/// Appends the walks of the legs.
#[tactic(auto, unfolding(crate::specs::GeoJson::legs_part))]
fn append_legs_part(out: &mut Vec<u8>, map: &Map, track: &Track) -> Result<(), AllocError>
    requires in_range { AreLegsBelow (length map.now.links) track.now.legs }
    ensures exact { OnOk result (out.new.items ≡ out.old.items ++ legs_part map.now track.now) }
{
    out.extend_from_slice(b"],\"walk\":[")?;
    append_legs(out, map, track.legs.as_slice())
}

/// Appends the walks of earlier alternatives.
#[tactic(auto, unfolding(crate::specs::GeoJson::earlier_part))]
fn append_earlier_part(out: &mut Vec<u8>, map: &Map, track: &Track) -> Result<(), AllocError>
    requires in_range { AreAlternativesBelow (length map.now.links) track.now.earlier }
    ensures exact { OnOk result (out.new.items ≡ out.old.items ++ earlier_part map.now track.now) }
{
    out.extend_from_slice(b"],\"earlier\":[")?;
    append_earlier(out, map, track.earlier.as_slice())?;
    out.extend_from_slice(b"]}")
}

/// Appends the line of a track that begins at a node.
#[tactic(auto, unfolding(crate::specs::GeoJson::line_text))]
fn append_line(
    out: &mut Vec<u8>,
    map: &Map,
    tiles: &Tiles,
    start: u32,
    rows: &[Row],
) -> Result<(), AllocError>
    requires start { start < length map.now.nodes }
    requires in_range { AreRowsBelow (length map.now.links) rows.now }
    ensures exact { OnOk result (out.new.items ≡ out.old.items
        ++ line_text map.now (height_of tiles.now) (spot_of map.now start) rows.now) }
{
    out.extend_from_slice(b",\"geometry\":{\"type\":\"LineString\",\"coordinates\":[")?;
    append_positions(out, map, tiles, start, rows)?;
    out.extend_from_slice(b"]}}]}\n")
}

/// The node of the first waypoint.
fn first_node(track: &Track) -> u32
    requires some { 0 < length track.now.nodes }
    ensures exact { result ≡ node_at track.now 0 }
{
    track.nodes.as_slice()[0]
}
