//! Cases on the check of profiles.

use crate::inputs::overrides_from;
use crate::texts::{NO_CALL, OUTSIDE};
use case_inputs::{Case, place_of, profile_of, table_of};
use context_check::{CheckError, Overrides, check};
use lookup_table::{Part, Table};
use profile_text::Profile;
use std::alloc::{AllocError, Global};

/// The calls on the check; the words are a table, a profile and overrides.
pub(crate) const CALLS: [&str; 2] = ["check", "checked"];

/// The answer to a case on the check.
pub(crate) fn answer(alloc: Global, case: &Case) -> Result<String, AllocError> {
    match table_of(alloc, case.word(1)) {
        Some(table) => of_table(alloc, case, &table),
        None => String::from_str(alloc, OUTSIDE),
    }
}

/// The answer under a table.
fn of_table(alloc: Global, case: &Case, table: &Table) -> Result<String, AllocError> {
    match profile_of(alloc, case.word(2)) {
        Some(profile) => of_profile(alloc, case, table, &profile),
        None => String::from_str(alloc, OUTSIDE),
    }
}

/// The answer on a profile under a table.
fn of_profile(
    alloc: Global,
    case: &Case,
    table: &Table,
    profile: &Profile,
) -> Result<String, AllocError> {
    let overrides = overrides_from(alloc, case, 3)?;
    outcome(alloc, case, table, profile, &overrides)
}

/// That the profile is accepted under a table and overrides, or the line of its refusal; of
/// `checked`, what is kept.
fn outcome(
    alloc: Global,
    case: &Case,
    table: &Table,
    profile: &Profile,
    overrides: &Overrides,
) -> Result<String, AllocError> {
    match kept(alloc, table, profile, overrides) {
        Ok(counts) => accepted(alloc, case, counts),
        Err(error) => error.line(alloc),
    }
}

/// How many assignments of ways, tags of ways and overrides are kept of a profile that is accepted,
/// or its refusal.
fn kept(
    alloc: Global,
    table: &Table,
    profile: &Profile,
    overrides: &Overrides,
) -> Result<(usize, u32, usize), CheckError> {
    let checked = check(alloc, profile, table, overrides)?;
    Ok((
        checked.profile().way.len(),
        checked.table().tags(Part::Way),
        checked.overrides().len(),
    ))
}

/// What is told of a profile that is accepted.
fn accepted(alloc: Global, case: &Case, counts: (usize, u32, usize)) -> Result<String, AllocError> {
    let (ways, tags, overrides) = counts;
    match place_of(&CALLS, case.word(0)) {
        0 => String::from_str(alloc, "accepted"),
        1 => format!(in alloc; "{ways} assignments, {tags} tags, {overrides} overrides"),
        _ => String::from_str(alloc, NO_CALL),
    }
}
