//! Links by their names in a text.

ghost use Rattle.std.specs.Prelude.{◌≡◌};
ghost use Rattle.overpass_graph.specs.Names.{letter_of};
ghost use Rattle.certificate_text.specs.Lines.{IsLink, link_text};
ghost use Rattle.certificate_text.specs.Parts.{IsStep, ReadsAt, ReadsTo, print_step, told};

use crate::cuts::behind_byte;
use crate::numbers::{id_before, number_before};
use overpass_graph::Map;

/// The link whose name a text begins with, where a byte follows, and what follows that.
pub(crate) fn link_before<'a>(map: &Map, text: &'a [u8], byte: u8) -> Option<(u32, &'a [u8])>
    ensures exact { ReadsTo byte (link_text map.now) (IsLink map.now) text.now (told result) }
{
    let _count = map.links();
    let Some(found) = link_at(map, text) else {
        return None;
    };
    let (link, back) = found;
    let Some(rest) = behind_byte(back, byte) else {
        return None;
    };
    Some((link, rest))
}

/// The link whose name a text begins with, and what follows the name.
pub(crate) fn link_at<'a>(map: &Map, text: &'a [u8]) -> Option<(u32, &'a [u8])>
    ensures exact { ReadsAt (link_text map.now) (IsLink map.now) text.now (told result) }
{
    let _count = map.links();
    let Some(found) = id_before(text, b'/') else {
        return None;
    };
    let (way, back) = found;
    let Some(named) = step_at(back) else {
        return None;
    };
    let (step, rest) = named;
    let Some(link) = map.find_link(way, step.0, step.1) else {
        return None;
    };
    Some((link, rest))
}

/// The segment and the direction that a text begins with, and what follows them.
fn step_at(text: &[u8]) -> Option<((u32, bool), &[u8])>
    ensures exact { ReadsAt print_step IsStep text.now (told result) }
{
    let Some(found) = number_before(text, b'/') else {
        return None;
    };
    let (segment, back) = found;
    let Some(named) = direction_at(back) else {
        return None;
    };
    let (direction, rest) = named;
    Some(((segment, direction), rest))
}

/// The direction that a text begins with, whether it is backward, and what follows it.
fn direction_at(text: &[u8]) -> Option<(bool, &[u8])>
    ensures exact { ReadsAt letter_of (λ _. Unit {0}) text.now (told result) }
{
    if let Some(rest) = behind_byte(text, b'f') {
        return Some((false, rest));
    }
    match behind_byte(text, b'b') {
        Some(rest) => Some((true, rest)),
        None => None,
    }
}
