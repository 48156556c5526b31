//! Walks of a text.

ghost use Rattle.std.specs.Prelude.{◌≡◌, IfOk, option_map};
ghost use Rattle.certificate_text.specs.Lines.{AreLinks, walk_text};
ghost use Rattle.certificate_text.specs.Parts.{Reads};

use crate::cuts::{behind_byte, count_of};
use crate::names::link_at;
use overpass_graph::Map;
use std::alloc::{AllocError, Global};

/// The walk that a text says, each link behind a space.
pub(crate) fn walk_of(alloc: Global, map: &Map, text: &[u8]) -> Result<Option<Vec<u32>>, AllocError>
    ensures exact { IfOk result (λ walk. Reads (walk_text map.now) (AreLinks map.now) text.now
        (option_map (λ w. w.items) walk)) }
{
    let _count = map.links();
    let mut walk = Vec::with_capacity(alloc, count_of(text, b' '))?;
    let mut rest = text;
    'links: while !rest.is_empty() {
        let Some(named) = behind_byte(rest, b' ') else {
            return Ok(None);
        };
        let Some(found) = link_at(map, named) else {
            return Ok(None);
        };
        let (link, after) = found;
        walk.push(link)?;
        rest = after;
    }
    Ok(Some(walk))
}
