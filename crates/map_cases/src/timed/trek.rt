//! The code of the profile for trekking.

ghost use Rattle.std.specs.Prelude.{◌≡◌, IfSome, length};
ghost use Rattle.lookup_table.specs.First.{rows_of};
ghost use Rattle.profile_code.specs.Flat.{tags_of};

use crate::timed::ways::TAGS;
use case_inputs::{LOOK, TREK, code_of, table_of};
use lookup_table::{Part, Table};
use profile_code::Code;
use std::alloc::Global;

/// The profile's code, for ways with so many tags as the table has.
pub(crate) fn trek_code(alloc: Global) -> Option<Code>
    ensures fits { IfSome result (λ code. tags_of code Part.Way ≡ 6) }
{
    let Some(table) = table_of(alloc, LOOK.as_bytes()) else {
        return None;
    };
    if table.tags(Part::Way) != TAGS {
        return None;
    }
    code_under(alloc, &table)
}

/// The profile's code under a tag table.
fn code_under(alloc: Global, table: &Table) -> Option<Code>
    ensures value { IfSome result
        (λ code. tags_of code Part.Way ≡ length (rows_of table.now Part.Way)) }
{
    code_of(alloc, table, TREK.as_bytes())
}
