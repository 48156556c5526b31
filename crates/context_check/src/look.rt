//! Why a look can't stand in a section.
ghost use Rattle.std.specs.Prelude.{◌≡◌, ◌<◌, is_some, length};
ghost use Rattle.context_check.specs.Context.{context_of};
ghost use Rattle.context_check.specs.Refusal.{look_refusal, tag_refusal};
ghost use Rattle.lookup_table.specs.First.{rows_of};
ghost use Rattle.lookup_table.specs.Tag.{place_of};
ghost use Rattle.profile_text.specs.Meaning.{look_number, look_numbers, row_at};

use crate::context::Context;
use crate::error::CheckError;
use lookup_table::{Name, Part, Table};
use profile_text::Section;

/// Why a look can't stand in a section.
pub(crate) fn look_fault(
    context: &Context,
    tag: &[u8],
    values: &[Name],
    line: u32,
) -> Option<CheckError>
    ensures exact { result
        ≡ look_refusal (context_of context.now).rows tag.now values.now line }
{
    match context.section {
        Section::Global => Some(CheckError::WrongSection { line }),
        Section::Way => tag_fault(context.table, Part::Way, tag, values, line),
        Section::Node => tag_fault(context.table, Part::Node, tag, values, line),
    }
}

/// Why a part of the table doesn't know a look's tag or one of its values.
fn tag_fault(
    table: &Table,
    part: Part,
    tag: &[u8],
    values: &[Name],
    line: u32,
) -> Option<CheckError>
    ensures exact { let rows = rows_of table.now part in
        result ≡ tag_refusal rows (place_of rows tag.now) values.now line }
{
    match table.tag_place(part, tag) {
        None => Some(CheckError::UnknownTag { line }),
        Some(place) => {
            if are_listed(table, part, place, values) {
                None
            } else {
                Some(CheckError::UnknownValue { line })
            }
        }
    }
}

/// Whether the tag at a place lists each of these values.
fn are_listed(table: &Table, part: Part, place: u32, values: &[Name]) -> bool
    requires fits { place < length (rows_of table.now part) }
    ensures exact { let row = row_at (rows_of table.now part) place in
        result ≡ is_some (look_numbers row values.now) }
{
    'values: for value in values {
        if !is_listed(table, part, place, value.as_slice()) {
            return false;
        }
    }
    true
}

/// Whether the tag at a place lists a value; `unknown` may always stand.
fn is_listed(table: &Table, part: Part, place: u32, value: &[u8]) -> bool
    requires fits { place < length (rows_of table.now part) }
    ensures exact { let row = row_at (rows_of table.now part) place in
        result ≡ is_some (look_number row value.now) }
{
    value == b"unknown".as_slice() || table.value_number(part, place, value).is_some()
}
