//! The table at the end of its lines.
ghost use Rattle.std.specs.Prelude.{◌≡◌, Ok, Err, IfNone, IsTrue, MatchOption};
ghost use Rattle.lookup_table.specs.declared.part.Part.TheVariants.{Node, Way};
ghost use Rattle.lookup_table.specs.First.{begins_as, begins_with};
ghost use Rattle.lookup_table.specs.Draft.{finish, saw_versions};

use crate::draft::Draft;
use crate::error::LookupError;
use crate::part::Part;
use crate::rows::Rows;
use crate::table::Table;

/// The table of a draft.
pub(crate) fn finished(draft: Draft) -> Result<Table, LookupError>
    ensures exact { result ≡ finish draft }
{
    match refusal(&draft) {
        Some(error) => Err(error),
        None => {
            let Draft { way, node, .. } = draft;
            Ok(Table { way, node })
        }
    }
}

/// Why a draft is no table.
fn refusal(draft: &Draft) -> Option<LookupError>
    ensures value { MatchOption result
        (finish draft.now ≡ Ok (record { way = draft.now.way; node = draft.now.node }))
        (λ e. finish draft.now ≡ Err e) }
    ensures way { IfNone result (IsTrue (begins_as Way draft.now.way)) }
    ensures node { IfNone result (IsTrue (begins_as Node draft.now.node)) }
{
    if !saw_versions(draft) {
        Some(LookupError::Version)
    } else if !begins_with(&draft.way, b"reversedirection") {
        Some(LookupError::FirstTag { part: Part::Way })
    } else if !begins_with(&draft.node, b"nodeaccessgranted") {
        Some(LookupError::FirstTag { part: Part::Node })
    } else {
        None
    }
}

/// Whether there was exactly one line of each version kind, both before the first part.
fn saw_versions(draft: &Draft) -> bool
    ensures value { result ≡ saw_versions draft.now }
{
    draft.lookups == 1 && draft.minors == 1 && !draft.late
}

/// Whether a part begins with the tag of a name, whose first value is `yes`.
fn begins_with(rows: &Rows, name: &[u8]) -> bool
    ensures value { result ≡ begins_with rows.now name.now }
{
    if rows.len() == 0 {
        return false;
    }
    let tag = rows.tag(0);
    tag.name() == name && tag.len() > 0 && tag.first(0) == b"yes".as_slice()
}
