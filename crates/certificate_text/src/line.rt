//! The lines of a text.

ghost use Rattle.std.specs.Prelude.{◌≡◌, ◌++◌, IfOk, codes, option_map};
ghost use Rattle.certificate_text.specs.Drafts.{form_of};
ghost use Rattle.certificate_text.specs.Lines.{IsForm, head_text, line_of};
ghost use Rattle.certificate_text.specs.Parts.{ReadsTo, told};

use crate::certificate::{Entry, LowerBound};
use crate::cuts::{behind, cut};
use crate::labels::entry_of;
use crate::numbers::cost_before;
use crate::walks::walk_of;
use overpass_graph::Map;
use std::alloc::{AllocError, Global};

/// What a line says.
#[derive(Drop)]
pub(crate) enum Line {
    /// The first one, with the lower bound of the certificate.
    Head { bound: LowerBound },
    /// A leg, with its walk.
    Leg { walk: Vec<u32> },
    /// What the walk costs.
    Cost { cost: u128 },
    /// A label.
    Label { entry: Entry },
    /// The last one.
    End,
}

/// What a text's first line says, if it is of one of the forms, and what follows it.
pub(crate) fn read_line<'a>(
    alloc: Global,
    map: &Map,
    text: &'a [u8],
) -> Result<Option<(Line, &'a [u8])>, AllocError>
    ensures exact { IfOk result (λ said. ReadsTo 10 (line_of map.now) (IsForm map.now) text.now
        (option_map (λ p. (form_of p.0, p.1.now)) said)) }
{
    if let Some(rest) = behind(text, b"label ") {
        return Ok(label(map, rest));
    }
    if let Some(rest) = behind(text, b"cost ") {
        return Ok(cost(map, rest));
    }
    if let Some(rest) = behind(text, b"leg") {
        return leg(alloc, map, rest);
    }
    if let Some(rest) = behind(text, b"end\n") {
        return Ok(Some((Line::End, rest)));
    }
    match head(text) {
        Some(found) => {
            let (bound, rest) = found;
            Ok(Some((Line::Head { bound }, rest)))
        }
        None => Ok(None),
    }
}

/// The lower bound that a text's first line says of a certificate, and what follows the line.
pub(crate) fn head(text: &[u8]) -> Option<(LowerBound, &[u8])>
    ensures exact { ReadsTo 10 head_text (λ _. Unit {0}) text.now (told result) }
{
    if let Some(rest) = behind(text, b"certificate 1\n") {
        return Some((LowerBound::Zero, rest));
    }
    match behind(text, b"certificate 2\n") {
        Some(rest) => Some((LowerBound::Least, rest)),
        None => None,
    }
}

/// What a line says that begins as a label.
fn label<'a>(map: &Map, text: &'a [u8]) -> Option<(Line, &'a [u8])>
    ensures exact { ReadsTo 10 (line_of map.now) (IsForm map.now) (codes "label " ++ text.now)
        (option_map (λ p. (form_of p.0, p.1.now)) result) }
{
    match entry_of(map, text) {
        Some(found) => {
            let (entry, rest) = found;
            Some((Line::Label { entry }, rest))
        }
        None => None,
    }
}

/// What a line says that begins as a cost.
fn cost<'a>(map: &Map, text: &'a [u8]) -> Option<(Line, &'a [u8])>
    ensures exact { ReadsTo 10 (line_of map.now) (IsForm map.now) (codes "cost " ++ text.now)
        (option_map (λ p. (form_of p.0, p.1.now)) result) }
{
    let _ = map;
    match cost_before(text, b'\n') {
        Some(found) => {
            let (cost, rest) = found;
            Some((Line::Cost { cost }, rest))
        }
        None => None,
    }
}

/// What a line says that begins as a leg.
fn leg<'a>(alloc: Global, map: &Map, text: &'a [u8]) -> Result<Option<(Line, &'a [u8])>, AllocError>
    ensures exact { IfOk result (λ said. ReadsTo 10 (line_of map.now) (IsForm map.now)
        (codes "leg" ++ text.now) (option_map (λ p. (form_of p.0, p.1.now)) said)) }
{
    let _count = map.links();
    let Some(found) = cut(text, b'\n') else {
        return Ok(None);
    };
    let (line, rest) = found;
    let Some(walk) = walk_of(alloc, map, line)? else {
        return Ok(None);
    };
    Ok(Some((Line::Leg { walk }, rest)))
}
