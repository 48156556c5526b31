//! Where the rows of each slot stand.

ghost use Rattle.std.specs.Prelude.{◌≡◌, ◌<◌, ◌^◌, ℕ, IfOk, Some, length};
ghost use Rattle.std.specs.List.{slice_get};
ghost use Rattle.route_certificate.specs.Index.{AreSpans};
ghost use Rattle.route_certificate.specs.declared.rows.Row.{Row as RowOf};

use crate::rows::Row;
use std::alloc::{AllocError, Global};

/// The places from the first row of a slot to the one after its last.
#[derive(Clone, Copy, Drop)]
pub(crate) struct Span {
    pub(crate) first: u32,
    pub(crate) end: u32,
}

/// The span of each of so many slots.
pub(crate) fn spans_of(alloc: Global, slots: u32, rows: &[Row]) -> Result<Vec<Span>, AllocError>
    requires few { length rows.now < 2 ^ 32 }
    requires within { (place : ℕ) (row : RowOf) →
        slice_get rows.now place ≡ Some row → row.slot < slots }
    ensures spans { IfOk result (λ spans. AreSpans slots rows.now (length rows.now) spans.items) }
{
    let none = Span {
        first: u32::MAX,
        end: 0,
    };
    let mut spans = vec![in alloc; none; slots as usize]?;
    'rows: for place in 0..rows.len() {
        let slot = rows[place].slot as usize;
        let first = spans[slot].first.min(place as u32);
        let end = (place + 1) as u32;
        spans[slot] = Span { first, end };
    }
    Ok(spans)
}
