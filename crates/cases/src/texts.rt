//! Answers as text.

use case_inputs::place_of;
use lookup_table::Part;
use std::alloc::{AllocError, Global};

/// What is answered where the words aren't such as the call takes.
pub(crate) const OUTSIDE: &str = "(outside)";

/// What is answered where the first word names no call.
pub(crate) const NO_CALL: &str = "no such call";

/// The text of these bytes.
pub(crate) fn text_of(alloc: Global, bytes: &[u8]) -> Result<String, AllocError> {
    String::from_str(alloc, shown(bytes))
}

/// These bytes, if they are a text.
pub(crate) fn shown(bytes: &[u8]) -> &str {
    match str::from_utf8(bytes) {
        Ok(text) => text,
        Err(_) => "(no text)",
    }
}

/// `yes` or `no`.
pub(crate) fn yes_or_no(is: bool) -> &'static str {
    if is { "yes" } else { "no" }
}

/// `yes` or `no`, as an answer.
pub(crate) fn truth(alloc: Global, is: bool) -> Result<String, AllocError> {
    String::from_str(alloc, yes_or_no(is))
}

/// The number, or `none`.
pub(crate) fn perhaps(alloc: Global, number: Option<i128>) -> Result<String, AllocError> {
    match number {
        Some(number) => format!(in alloc; "{number}"),
        None => String::from_str(alloc, "none"),
    }
}

/// The part of a tag table that a word names; any word but `way` names that of the nodes.
pub(crate) fn part_of(word: &[u8]) -> Part {
    match place_of(&["way"], word) {
        0 => Part::Way,
        _ => Part::Node,
    }
}
