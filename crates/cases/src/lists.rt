//! Cases on lists, names as keys, classes of bytes, and growing texts.

use crate::texts::{NO_CALL, shown, text_of, truth};
use case_inputs::{Case, place_of};
use item_list::{
    Items, Name, TryClone, append_bytes, append_named, append_number, append_signed, append_wide,
    bytes_of, is_digit, is_space,
};
use std::alloc::{AllocError, Global};
use std::collections::HashMap;

/// The calls on lists.
pub(crate) const CALLS: [&str; 6] = [
    "list",
    "same_name",
    "key",
    "is_space",
    "is_digit",
    "appended",
];

/// The answer to a case on lists.
pub(crate) fn answer(alloc: Global, case: &Case) -> Result<String, AllocError> {
    match place_of(&CALLS, case.word(0)) {
        0 => copied(alloc, case),
        1 => compared(alloc, case),
        2 => looked_up(alloc, case),
        3 => truth(alloc, is_space(byte(case))),
        4 => truth(alloc, is_digit(byte(case))),
        5 => appended(alloc, case),
        _ => String::from_str(alloc, NO_CALL),
    }
}

/// Whether two names are the same.
fn compared(alloc: Global, case: &Case) -> Result<String, AllocError> {
    let first = name(alloc, case.word(1))?;
    let second = name(alloc, case.word(2))?;
    truth(alloc, first == second)
}

/// The first word behind the call as a byte.
fn byte(case: &Case) -> u8 {
    case.text(1).parse::<u8>().unwrap_or(255)
}

/// A name with these bytes.
fn name(alloc: Global, bytes: &[u8]) -> Result<Name, AllocError> {
    Ok(Items::from_vec(bytes_of(alloc, bytes)?))
}

/// The words behind the call pushed one by one, cloned, and given back as a vector: how many, and
/// each.
fn copied(alloc: Global, case: &Case) -> Result<String, AllocError> {
    let list = pushed(alloc, case)?;
    let vector = list.try_clone(alloc)?.into_vec();
    let mut text = format!(in alloc; "{}", list.len())?;
    tell(&mut text, vector.as_slice())?;
    Ok(text)
}

/// The words behind the call, each with its number, pushed one by one.
fn pushed(alloc: Global, case: &Case) -> Result<Items<(Name, i64)>, AllocError> {
    let mut list = Items::new(alloc);
    for place in 1..case.len() {
        list.push((name(alloc, case.word(place))?, case.signed(place)))?;
    }
    Ok(list)
}

/// Writes names with their numbers.
fn tell(text: &mut String, items: &[(Name, i64)]) -> Result<(), AllocError> {
    for (name, number) in items {
        write!(text, " {}:{number}", shown(name.as_slice()))?;
    }
    Ok(())
}

/// The place of the first word among those behind it, in a map whose keys they are; of equal ones
/// the last.
fn looked_up(alloc: Global, case: &Case) -> Result<String, AllocError> {
    let mut places = HashMap::new(alloc);
    for place in 2..case.len() {
        places.insert(name(alloc, case.word(place))?, place)?;
    }
    match places.get(&name(alloc, case.word(1))?) {
        Some(place) => format!(in alloc; "{place}"),
        None => String::from_str(alloc, "none"),
    }
}

/// A text that grows by a word, a number of each kind, and a word with its number.
fn appended(alloc: Global, case: &Case) -> Result<String, AllocError> {
    let mut text = Vec::new(alloc);
    append(&mut text, case)?;
    text_of(alloc, text.as_slice())
}

/// Appends these to a text.
fn append(text: &mut Vec<u8>, case: &Case) -> Result<(), AllocError> {
    append_bytes(text, case.word(1))?;
    append_number(text, case.count(2))?;
    append_bytes(text, b",")?;
    append_wide(text, case.size(3))?;
    append_bytes(text, b",")?;
    append_signed(text, case.signed(4))?;
    append_named(text, case.word(5), case.count(6))
}
