//! The labels of a list by their slots and their numbers.

ghost use Rattle.std.specs.Prelude.{◌↔◌, ◌<◌, IfOk, IsTrue};
ghost use Rattle.bike_space.specs.Closed.{IsCoveredIn};
ghost use Rattle.space_search.specs.Rules.{LOW_BOUND};
ghost use Rattle.route_certificate.specs.Entries.{AreBounded, labels_of};
ghost use Rattle.route_certificate.specs.Index.{IsIndex};

use crate::entries::carry;
use crate::order::sort;
use crate::rows::{Row, rows_of};
use crate::runs::join;
use crate::spans::{Span, spans_of};
use certificate_text::Entry;
use cost_model::Carry;
use space_search::Space;
use std::alloc::{AllocError, Global};

/// The labels as rows with their runs, and for each slot the span of its rows.
pub(crate) struct Index {
    pub(crate) rows: Vec<Row>,
    pub(crate) spans: Vec<Span>,
}

impl Drop for Index {
    fn drop(self) {
        let Index { rows: _, spans: _ } = self;
    }
}

/// The labels by their slots and their numbers.
pub(crate) fn index_of<S: Space<State = Carry>>(
    alloc: Global,
    space: &S,
    entries: &[Entry],
) -> Result<Index, AllocError>
    requires bounded { AreBounded (S.rules space.now) entries.now }
    ensures index { IfOk result (IsIndex (S.rules space.now) entries.now) }
{
    if entries.len() > u32::MAX as usize {
        return Err(AllocError);
    }
    let mut rows = rows_of(alloc, space, entries)?;
    sort(&mut rows);
    join(&mut rows);
    let spans = spans_of(alloc, space.slots(), rows.as_slice())?;
    Ok(Index { rows, spans })
}

/// Whether a label covers a state at a cost. What covers has its slot, and no number greater, so
/// runs with a greater one are passed over.
pub(crate) fn is_covered<S: Space<State = Carry>>(
    space: &S,
    entries: &[Entry],
    index: &Index,
    state: &Carry,
    cost: u128,
) -> bool
    requires bounded { AreBounded (S.rules space.now) entries.now }
    requires index { IsIndex (S.rules space.now) entries.now index.now }
    requires valid { IsTrue ((S.rules space.now).is_valid state.now) }
    requires small { cost < LOW_BOUND }
    ensures exact { IsTrue result ↔
        IsCoveredIn (S.rules space.now) (labels_of entries.now) state.now cost }
{
    let span = index.spans[space.slot(state) as usize];
    let point = space.point(state, cost);
    let mut place = span.first;
    'rows: while place < span.end && (place as usize) < index.rows.len() {
        let row = &index.rows[place as usize];
        if row.low.is_lower(&point, cost) {
            let entry = &entries[row.place as usize];
            if space.covers(&carry(entry), entry.cost, state, cost) {
                return true;
            }
            place += 1;
        } else {
            place = row.end;
        }
    }
    false
}
