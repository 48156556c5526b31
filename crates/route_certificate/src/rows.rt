//! The labels of a list as rows, in the order of their places.

ghost use Rattle.std.specs.Prelude.{◌≡◌, ◌<◌, ◌^◌, IfOk, length};
ghost use Rattle.route_certificate.specs.Entries.{AreBounded, IsBounded};
ghost use Rattle.route_certificate.specs.Index.{ArePlaced, IsRowOf};

use crate::entries::carry;
use crate::low::Low;
use certificate_text::Entry;
use cost_model::Carry;
use space_search::Space;
use std::alloc::{AllocError, Global};

/// A label by its place in its list and its slot, and the run of rows that begins with it: the
/// place of the row after it, and the least numbers of its labels.
#[derive(Clone, Copy, Drop)]
pub(crate) struct Row {
    pub(crate) low: Low,
    pub(crate) place: u32,
    pub(crate) slot: u32,
    pub(crate) end: u32,
}

/// The labels as rows, each by itself.
pub(crate) fn rows_of<S: Space<State = Carry>>(
    alloc: Global,
    space: &S,
    entries: &[Entry],
) -> Result<Vec<Row>, AllocError>
    requires bounded { AreBounded (S.rules space.now) entries.now }
    requires few { length entries.now < 2 ^ 32 }
    ensures rows { IfOk result (λ rows.
        ArePlaced (S.rules space.now) entries.now (length entries.now) rows.items) }
{
    let mut rows = Vec::with_capacity(alloc, entries.len())?;
    'entries: for place in 0..entries.len() {
        rows.push(row_of(space, &entries[place], place as u32))?;
    }
    Ok(rows)
}

/// A label as a row.
fn row_of<S: Space<State = Carry>>(space: &S, entry: &Entry, place: u32) -> Row
    requires one { IsBounded (S.rules space.now) entry.now }
    ensures place { result.place ≡ place }
    ensures row { IsRowOf (S.rules space.now) entry.now result }
{
    let state = carry(entry);
    let (point, cost) = (space.point(&state, entry.cost), entry.cost);
    let low = Low { point, cost };
    let slot = space.slot(&state);
    Row {
        low,
        place,
        slot,
        end: place,
    }
}
