//! Labels of a text.

ghost use Rattle.std.specs.Prelude.{◌≡◌};
ghost use Rattle.certificate_text.specs.Lines.{IsEntry, entry_text};
ghost use Rattle.certificate_text.specs.Parts.{AreBuffers, AreWeights, ReadsTo, print_buffers, print_weights, told};

use crate::certificate::Entry;
use crate::names::link_before;
use crate::numbers::{buffer_before, cost_before};
use overpass_graph::Map;

/// The label that a text says up to a line's end, and what follows the line.
pub(crate) fn entry_of<'a>(map: &Map, text: &'a [u8]) -> Option<(Entry, &'a [u8])>
    ensures exact { ReadsTo 10 (entry_text map.now) (IsEntry map.now) text.now (told result) }
{
    let _count = map.links();
    let Some(found) = link_before(map, text, b' ') else {
        return None;
    };
    let (link, back) = found;
    let Some(told) = weights_of(back) else {
        return None;
    };
    let (weights, rest) = told;
    let (cost, buffers) = weights;
    let (down, up) = buffers;
    let entry = Entry {
        cost,
        down,
        up,
        link,
    };
    Some((entry, rest))
}

/// The cost and the buffers that a text says up to a line's end, and what follows the line.
fn weights_of(text: &[u8]) -> Option<((u128, (i64, i64)), &[u8])>
    ensures exact { ReadsTo 10 print_weights AreWeights text.now (told result) }
{
    let Some(found) = cost_before(text, b' ') else {
        return None;
    };
    let (cost, back) = found;
    let Some(told) = buffers_of(back) else {
        return None;
    };
    let (buffers, rest) = told;
    Some(((cost, buffers), rest))
}

/// The buffers that a text says up to a line's end, and what follows the line.
fn buffers_of(text: &[u8]) -> Option<((i64, i64), &[u8])>
    ensures exact { ReadsTo 10 print_buffers AreBuffers text.now (told result) }
{
    let Some(found) = buffer_before(text, b' ') else {
        return None;
    };
    let (down, back) = found;
    let Some(told) = buffer_before(back, b'\n') else {
        return None;
    };
    let (up, rest) = told;
    Some(((down, up), rest))
}
