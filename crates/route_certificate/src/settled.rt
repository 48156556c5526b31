//! The labels that a search settled.

ghost use Rattle.std.specs.Prelude.{◌≡◌, IfOk};
ghost use Rattle.bike_space.specs.Settled.{entries_of};
ghost use Rattle.space_search.specs.Rules.{Rules};
ghost use Rattle.space_search.specs.Searches.{IsSearchOf};
ghost use Rattle.space_search.specs.View.{view};
ghost use Rattle.route_certificate.specs.Entries.{carry_of, labels_of};

use certificate_text::Entry;
use cost_model::Carry;
use space_search::Search;
use std::alloc::{AllocError, Global};

/// The labels that a search settled, in the order in which it settled them.
pub(crate) fn settled_entries(
    alloc: Global,
    search: &Search<Carry>,
) -> Result<Vec<Entry>, AllocError>
    requires of { (rules : Rules Carry) × IsSearchOf rules search.now }
    ensures exact { IfOk result (λ entries.
        labels_of entries.items ≡ entries_of (view search.now).settled) }
{
    let count = search.labels();
    let mut entries = Vec::with_capacity(alloc, count as usize)?;
    'labels: for label in 0..count {
        entries.push(entry_of(search.state_of(label), search.cost_of(label)))?;
    }
    Ok(entries)
}

/// A state at its cost as a label.
fn entry_of(state: &Carry, cost: u128) -> Entry
    ensures state { carry_of result ≡ state.now }
    ensures cost { result.cost ≡ cost }
{
    Entry {
        cost,
        down: state.down,
        up: state.up,
        link: state.link,
    }
}
