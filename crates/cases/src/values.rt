//! Cases on the meaning of profiles.

use crate::inputs::numbers_from;
use crate::texts::{NO_CALL, OUTSIDE, part_of, shown};
use case_inputs::{Case, place_of, profile_of, table_of};
use fixed_num::Arith;
use lookup_table::Table;
use profile_text::{Names, Profile};
use profile_values::{ValueError, Vars, section_values};
use std::alloc::{AllocError, Global};

/// The calls on values.
pub(crate) const CALLS: [&str; 2] = ["values", "last_name"];

/// The answer to a case on values.
pub(crate) fn answer(alloc: Global, case: &Case) -> Result<String, AllocError> {
    match place_of(&CALLS, case.word(0)) {
        0 => values(alloc, case),
        1 => last_name(alloc, case),
        _ => String::from_str(alloc, NO_CALL),
    }
}

/// The variables of a part under a table and a profile, for the tag numbers of a way or a node.
fn values(alloc: Global, case: &Case) -> Result<String, AllocError> {
    match table_of(alloc, case.word(1)) {
        Some(table) => of_table(alloc, case, &table),
        None => String::from_str(alloc, OUTSIDE),
    }
}

/// The variables under a table.
fn of_table(alloc: Global, case: &Case, table: &Table) -> Result<String, AllocError> {
    match profile_of(alloc, case.word(3)) {
        Some(profile) => of_profile(alloc, case, table, &profile),
        None => String::from_str(alloc, OUTSIDE),
    }
}

/// The variables of a profile under a table.
fn of_profile(
    alloc: Global,
    case: &Case,
    table: &Table,
    profile: &Profile,
) -> Result<String, AllocError> {
    let part = part_of(case.word(2));
    let numbers = numbers_from(alloc, case, 4)?;
    if numbers.len() != table.tags(part) as usize {
        return String::from_str(alloc, OUTSIDE);
    }
    let found = section_values(alloc, profile, table, part, numbers.as_slice());
    written(alloc, &found)
}

/// The variables, each `name=millionths`, parted by a space, or what is said of the first fault.
fn written(alloc: Global, values: &Result<Vars, ValueError>) -> Result<String, AllocError> {
    match values {
        Ok(vars) => listed(alloc, vars),
        Err(ValueError::Unbound { line }) => format!(in alloc; "unbound at {line}"),
        Err(ValueError::Arith { name, kind }) => {
            format!(in alloc; "{} in {}", word_of(*kind), shown(name.as_slice()))
        }
        Err(ValueError::NoMemory) => Err(AllocError),
    }
}

/// What is said of a fault.
fn word_of(kind: Arith) -> &'static str {
    match kind {
        Arith::DivZero => "zero divides",
        Arith::TooLarge => "too large",
    }
}

/// The variables, each `name=millionths`, parted by a space.
fn listed(alloc: Global, vars: &Vars) -> Result<String, AllocError> {
    let mut out = String::new(alloc);
    list(&mut out, vars)?;
    Ok(out)
}

/// Writes the variables.
fn list(out: &mut String, vars: &Vars) -> Result<(), AllocError> {
    for (name, number) in vars.as_slice() {
        if !out.is_empty() {
            out.push(' ')?;
        }
        let name = shown(name.as_slice());
        write!(out, "{name}={}", number.millionths())?;
    }
    Ok(())
}

/// How many names were put in, the words from the third on, and the last place of the first word.
fn last_name(alloc: Global, case: &Case) -> Result<String, AllocError> {
    let mut names = Names::new(alloc);
    for at in 2..case.len() {
        names.push(alloc, case.word(at))?;
    }
    match names.last(case.word(1)) {
        Some(place) => format!(in alloc; "{} {place}", names.len()),
        None => format!(in alloc; "{} none", names.len()),
    }
}
