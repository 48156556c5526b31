//! The reply as lines of fields that are parted by tabulators.

ghost use Rattle.std.specs.Prelude.{◌≡◌, ◌<◌, ◌^◌, ◌++◌, IfOk, OnOk, length};
ghost use Rattle.std.specs.List.{flat_map};
ghost use Rattle.track_legs.specs.Rows.{AreBelow};
ghost use Rattle.track_reply.specs.Csv.{alternative_lines, csv_of, earlier_line, earlier_lines, leg_line, leg_lines, row_line, row_lines, sum_lines};
ghost use Rattle.track_reply.specs.Earlier.{walks_of};
ghost use Rattle.track_reply.specs.Showable.{AreAlternativesBelow, AreLegsBelow, AreRowsBelow, IsShowable};
ghost use Rattle.track_reply.specs.Source.{source_of};
ghost use Rattle.track_legs.specs.Sums.{total_cost, total_rank};

use crate::earlier::{alternatives, walk_at};
use crate::numbers::append_sum;
use crate::rows::{append_row, header, row_at};
use crate::shown::Shown;
use crate::steps::append_fields;
use crate::style::Style;
use cost_model::FactsOf;
use item_list::{Items, append_number};
use overpass_graph::Map;
use std::alloc::{AllocError, Global};
use track_legs::{Leg, Row, Track, rows, total_cost, total_rank};

/// A track as lines of fields: a header, a row for each link, the cost, the rank, and the walks of
/// its legs and of those of earlier alternatives.
#[tactic(auto, unfolding(crate::specs::Csv::csv_of))]
pub fn csv<F: FactsOf>(
    alloc: Global,
    shown: &Shown<F>,
    track: &Track,
) -> Result<Vec<u8>, AllocError>
    requires lawful { let source =
        source_of shown.now.map.now shown.now.table.now shown.now.tiles.now
        (F.links shown.now.facts.now) shown.now.rates.now shown.now.name.now
        shown.now.alternative in
        IsShowable source track.now }
    ensures exact { let source = source_of shown.now.map.now shown.now.table.now shown.now.tiles.now
        (F.links shown.now.facts.now) shown.now.rates.now shown.now.name.now
        shown.now.alternative in
        IfOk result (λ bytes. bytes.items ≡ csv_of source track.now) }
{
    let rows = rows(alloc, track, shown.facts, shown.rates)?;
    let mut out = Vec::new(alloc);
    append_rows(alloc, &mut out, shown, rows.as_slice())?;
    append_sums(&mut out, track.legs.as_slice())?;
    append_legs(&mut out, shown.map, track.legs.as_slice())?;
    append_earlier(&mut out, shown.map, track.earlier.as_slice())?;
    Ok(out)
}

/// Appends the header's line and those of rows.
#[tactic(auto, unfolding(crate::specs::Csv::row_lines))]
fn append_rows<F: FactsOf>(
    alloc: Global,
    out: &mut Vec<u8>,
    shown: &Shown<F>,
    rows: &[Row],
) -> Result<(), AllocError>
    requires in_range { AreRowsBelow (length shown.now.map.now.links) rows.now }
    requires counted { (F.links shown.now.facts.now).count ≡ length shown.now.map.now.links }
    ensures exact { let source = source_of shown.now.map.now shown.now.table.now shown.now.tiles.now
        (F.links shown.now.facts.now) shown.now.rates.now shown.now.name.now
        shown.now.alternative in
        OnOk result (out.new.items ≡ out.old.items ++ row_lines source rows.now) }
{
    out.extend_from_slice(header(Style::Lines))?;
    out.extend_from_slice(b"\n")?;
    append_lines(alloc, out, shown, rows)
}

/// Appends the lines of rows.
fn append_lines<F: FactsOf>(
    alloc: Global,
    out: &mut Vec<u8>,
    shown: &Shown<F>,
    rows: &[Row],
) -> Result<(), AllocError>
    requires in_range { AreRowsBelow (length shown.now.map.now.links) rows.now }
    requires counted { (F.links shown.now.facts.now).count ≡ length shown.now.map.now.links }
    ensures exact { let source = source_of shown.now.map.now shown.now.table.now shown.now.tiles.now
        (F.links shown.now.facts.now) shown.now.rates.now shown.now.name.now
        shown.now.alternative in
        OnOk result (out.new.items ≡ out.old.items ++ flat_map (row_line source) rows.now) }
{
    'rows: for place in 0..rows.len() {
        append_line(alloc, out, shown, &row_at(rows, place))?;
    }
    Ok(())
}

/// Appends the line of a row.
fn append_line<F: FactsOf>(
    alloc: Global,
    out: &mut Vec<u8>,
    shown: &Shown<F>,
    row: &Row,
) -> Result<(), AllocError>
    requires in_range { row.now.link < length shown.now.map.now.links }
    requires counted { row.now.link < (F.links shown.now.facts.now).count }
    ensures exact { let source = source_of shown.now.map.now shown.now.table.now shown.now.tiles.now
        (F.links shown.now.facts.now) shown.now.rates.now shown.now.name.now
        shown.now.alternative in
        OnOk result (out.new.items ≡ out.old.items ++ row_line source row.now) }
{
    append_row(alloc, out, Style::Lines, shown, row)?;
    out.extend_from_slice(b"\n")
}

/// Appends the lines of the cost and of the rank.
#[tactic(auto, unfolding(crate::specs::Csv::sum_lines))]
fn append_sums(out: &mut Vec<u8>, legs: &[Leg]) -> Result<(), AllocError>
    requires costs { total_cost legs.now < 2 ^ 127 }
    requires ranks { total_rank legs.now < 2 ^ 127 }
    ensures exact { OnOk result (out.new.items ≡ out.old.items ++ sum_lines legs.now) }
{
    out.extend_from_slice(b"cost\t")?;
    append_sum(out, total_cost(legs))?;
    out.extend_from_slice(b"\nrank\t")?;
    append_sum(out, total_rank(legs))?;
    out.extend_from_slice(b"\n")
}

/// Appends the lines of legs.
#[tactic(auto, unfolding(crate::specs::Csv::leg_lines))]
fn append_legs(out: &mut Vec<u8>, map: &Map, legs: &[Leg]) -> Result<(), AllocError>
    requires in_range { AreLegsBelow (length map.now.links) legs.now }
    ensures exact { OnOk result (out.new.items ≡ out.old.items ++ leg_lines map.now legs.now) }
{
    'legs: for place in 0..legs.len() {
        append_leg(out, map, &legs[place])?;
    }
    Ok(())
}

/// Appends the line of a leg.
#[tactic(auto, unfolding(crate::specs::Csv::leg_line))]
fn append_leg(out: &mut Vec<u8>, map: &Map, leg: &Leg) -> Result<(), AllocError>
    requires in_range { AreBelow (length map.now.links) leg.now.links }
    ensures exact { OnOk result (out.new.items ≡ out.old.items ++ leg_line map.now leg.now) }
{
    out.extend_from_slice(b"walk")?;
    append_fields(out, map, leg.links.as_slice())?;
    out.extend_from_slice(b"\n")
}

/// Appends the lines of earlier alternatives.
#[tactic(auto, unfolding(crate::specs::Csv::earlier_lines))]
fn append_earlier(
    out: &mut Vec<u8>,
    map: &Map,
    earlier: &[Items<Items<u32>>],
) -> Result<(), AllocError>
    requires in_range { AreAlternativesBelow (length map.now.links) earlier.now }
    ensures exact { OnOk result (out.new.items ≡ out.old.items ++
        earlier_lines map.now earlier.now) }
{
    let count = alternatives(earlier);
    'alternatives: for number in 0..count {
        append_alternative(out, map, earlier, number)?;
    }
    Ok(())
}

/// Appends the lines of an earlier alternative.
#[tactic(auto, unfolding(crate::specs::Csv::alternative_lines))]
fn append_alternative(
    out: &mut Vec<u8>,
    map: &Map,
    earlier: &[Items<Items<u32>>],
    number: usize,
) -> Result<(), AllocError>
    requires in_range { AreAlternativesBelow (length map.now.links) earlier.now }
    ensures exact { OnOk result (out.new.items ≡
        out.old.items ++ alternative_lines map.now number (walks_of earlier.now number)) }
{
    'legs: for leg in 0..earlier.len() {
        append_earlier_leg(out, map, number as u64, walk_at(earlier, leg, number))?;
    }
    Ok(())
}

/// Appends the line of a leg of an earlier alternative.
#[tactic(auto, unfolding(crate::specs::Csv::earlier_line))]
fn append_earlier_leg(
    out: &mut Vec<u8>,
    map: &Map,
    number: u64,
    walk: &[u32],
) -> Result<(), AllocError>
    requires in_range { AreBelow (length map.now.links) walk.now }
    ensures exact { OnOk result (out.new.items ≡
        out.old.items ++ earlier_line map.now number walk.now) }
{
    out.extend_from_slice(b"earlier\t")?;
    append_number(out, number)?;
    append_fields(out, map, walk)?;
    out.extend_from_slice(b"\n")
}
