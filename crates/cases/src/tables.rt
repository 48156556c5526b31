//! Cases on tag tables, tag numbers and the text of tags.

ghost use Rattle.lookup_table.specs.First.{rows_of};
ghost use Rattle.lookup_table.specs.Numbers.{AreNumbersOf};

use crate::texts::{NO_CALL, OUTSIDE, part_of, perhaps, shown};
use case_inputs::{Case, place_of, table_of};
use item_list::Items;
use lookup_table::{Name, Part, Table, Tags};
use std::alloc::{AllocError, Global};

/// The calls on tag tables; those behind the first take the text of a table that is read.
pub(crate) const CALLS: [&str; 5] = ["table", "tags", "tag_place", "value_number", "encode"];

/// The answer to a case on tag tables.
pub(crate) fn answer(alloc: Global, case: &Case) -> Result<String, AllocError> {
    match place_of(&CALLS, case.word(0)) {
        0 => outcome(alloc, case.word(1)),
        call => of_text(alloc, case, call),
    }
}

/// The line of the refusal of a text, or that it is accepted.
fn outcome(alloc: Global, text: &[u8]) -> Result<String, AllocError> {
    if text.len() >= 1 << 32 {
        return String::from_str(alloc, OUTSIDE);
    }
    match Table::read(alloc, text) {
        Ok(_) => String::from_str(alloc, "accepted"),
        Err(error) => error.line(alloc),
    }
}

/// The answer of the call at a place of the calls on the table of the text in the first word.
fn of_text(alloc: Global, case: &Case, call: usize) -> Result<String, AllocError> {
    match table_of(alloc, case.word(1)) {
        Some(table) => of_table(alloc, case, call, &table),
        None => String::from_str(alloc, OUTSIDE),
    }
}

/// The answer of the call on a table, and the part in the second word.
fn of_table(alloc: Global, case: &Case, call: usize, table: &Table) -> Result<String, AllocError> {
    let part = part_of(case.word(2));
    match call {
        1 => perhaps(alloc, Some(i128::from(table.tags(part)))),
        2 => perhaps(alloc, table.tag_place(part, case.word(3)).map(i128::from)),
        3 => perhaps(alloc, value_number(table, part, case).map(i128::from)),
        4 => encoded(alloc, table, part, case),
        _ => String::from_str(alloc, NO_CALL),
    }
}

/// The number of the value in the fourth word of the tag in the third; none where one of them isn't
/// listed.
fn value_number(table: &Table, part: Part, case: &Case) -> Option<u16> {
    let place = table.tag_place(part, case.word(3))?;
    table.value_number(part, place, case.word(4))
}

/// A name with these bytes.
fn name(alloc: Global, bytes: &[u8]) -> Result<Name, AllocError> {
    Ok(Items::from_vec(Vec::from_slice(alloc, bytes)?))
}

/// A tag with this name and this value.
fn tag(alloc: Global, key: &[u8], value: &[u8]) -> Result<(Name, Name), AllocError> {
    let key = name(alloc, key)?;
    let value = name(alloc, value)?;
    Ok((key, value))
}

/// The tags that the words from the fourth on write as `name=value`.
fn tags(alloc: Global, case: &Case) -> Result<Tags, AllocError> {
    let mut tags = Items::new(alloc);
    for place in 3..case.len() {
        if let Some((key, value)) = case.text(place).split_once('=') {
            tags.push(tag(alloc, key.as_bytes(), value.as_bytes())?)?;
        }
    }
    Ok(tags)
}

/// The numbers of tags, and the text of these numbers.
fn encoded(alloc: Global, table: &Table, part: Part, case: &Case) -> Result<String, AllocError> {
    let tags = tags(alloc, case)?;
    let numbers = table.encode(alloc, part, &tags)?;
    of_numbers(alloc, table, part, numbers.as_slice())
}

/// Numbers of tags, and their text.
fn of_numbers(
    alloc: Global,
    table: &Table,
    part: Part,
    numbers: &[u16],
) -> Result<String, AllocError>
    requires fits { AreNumbersOf (rows_of table.now part) numbers.now }
{
    let printed = table.print(alloc, part, numbers)?;
    let mut text = String::new(alloc);
    tell(&mut text, numbers, printed.as_slice())?;
    Ok(text)
}

/// Writes the numbers of tags, and their text.
fn tell(text: &mut String, numbers: &[u16], printed: &[u8]) -> Result<(), AllocError> {
    for number in numbers {
        write!(text, "{number} ")?;
    }
    text.push_str(shown(printed))
}
