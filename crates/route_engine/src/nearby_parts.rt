//! The parts of the text of what lies within a cost, in both of its forms.

ghost use Rattle.std.specs.Prelude.{◌≡◌, ◌++◌, ◌≤◌, IfOk, OnOk, length};
ghost use Rattle.route_engine.specs.NearbyAnswers.{AreOnMap};
ghost use Rattle.route_engine.specs.NearbyTexts.{GoesToPart, first_part, list_head, lists_end, part_rows, reply_head};
ghost use Rattle.route_engine.specs.Told.{source_by};
ghost use Rattle.route_ready.specs.World.{world_of};

use crate::nearby_json::{append_feature_head, append_ids, append_places, append_sums};
use crate::nearby_lines::append_lines;
use crate::told::Told;
use item_list::bytes_of;
use route_http::Form;
use route_ready::{Ready, World};
use std::alloc::{AllocError, Global};

/// What is written of the list of a waypoint.
#[derive(Clone, Copy)]
pub(crate) enum Part {
    /// The ids of its nodes.
    Ids,
    /// Their costs.
    Costs,
    /// Their places.
    Places,
    /// A line for each of them.
    Lines,
}

/// What stands before the first list.
pub(crate) fn reply_head(alloc: Global, form: Form) -> Result<Vec<u8>, AllocError>
    ensures exact { IfOk result (λ text. text.items ≡ reply_head form) }
{
    match form {
        Form::GeoJson => bytes_of(alloc, b"{\"type\":\"FeatureCollection\",\"features\":["),
        Form::Csv => Ok(Vec::new(alloc)),
    }
}

/// Appends what stands behind the last list.
pub(crate) fn append_end(text: &mut Vec<u8>, form: Form) -> Result<(), AllocError>
    ensures exact { OnOk result (text.new.items ≡ text.old.items ++ lists_end form) }
{
    match form {
        Form::GeoJson => text.extend_from_slice(b"]}\n"),
        Form::Csv => Ok(()),
    }
}

/// Appends what stands before the first row of the list of a waypoint.
pub(crate) fn append_head(
    text: &mut Vec<u8>,
    world: &World,
    ready: &Ready,
    told: &Told,
    cost: u64,
    number: usize,
) -> Result<(), AllocError>
    ensures exact { let source = source_by (world_of world.now) ready.now told.now in
        OnOk result (text.new.items ≡
        text.old.items ++ list_head told.now.form source cost number) }
{
    match told.form {
        Form::GeoJson => append_feature_head(text, world, ready, told, cost, number),
        Form::Csv => Ok(()),
    }
}

/// The first part of a list.
pub(crate) fn first_part(form: Form) -> Part
    ensures exact { result ≡ first_part form }
{
    match form {
        Form::GeoJson => Part::Ids,
        Form::Csv => Part::Lines,
    }
}

/// Appends the rows of a part of the list of a waypoint from a place up to another.
pub(crate) fn append_rows(
    text: &mut Vec<u8>,
    world: &World,
    ready: &Ready,
    told: &Told,
    number: usize,
    part: Part,
    list: &[(u32, u128)],
    place: usize,
    end: usize,
) -> Result<(), AllocError>
    requires there { AreOnMap (world_of world.now).map list.now }
    requires rising { place ≤ end }
    requires within { end ≤ length list.now }
    ensures exact { let source = source_by (world_of world.now) ready.now told.now in
        OnOk result (text.new.items ++ part_rows part source number list.now end ≡
        text.old.items ++ part_rows part source number list.now place) }
{
    match part {
        Part::Ids => append_ids(text, world.map(), list, place, end),
        Part::Costs => append_sums(text, list, place, end),
        Part::Places => append_places(text, world, ready, told, list, place, end),
        Part::Lines => append_lines(text, world.map(), number as u64, list, place, end),
    }
}

/// Appends what stands behind a part of a list. Tells the next part.
pub(crate) fn next_part(text: &mut Vec<u8>, part: Part) -> Result<Option<Part>, AllocError>
    ensures exact { IfOk result (GoesToPart text.old.items text.new.items part) }
{
    match part {
        Part::Ids => {
            text.extend_from_slice(b"],\"costs\":[")?;
            Ok(Some(Part::Costs))
        }
        Part::Costs => {
            text.extend_from_slice(b"]},\"geometry\":{\"type\":\"MultiPoint\",\"coordinates\":[")?;
            Ok(Some(Part::Places))
        }
        Part::Places => {
            text.extend_from_slice(b"]}}")?;
            Ok(None)
        }
        Part::Lines => Ok(None),
    }
}
