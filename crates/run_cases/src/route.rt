//! Cases of requests answered as a whole and in turns, of tables, and of stored profiles.

mod answers;
mod inputs;
mod replies;
mod shelves;
mod steps;
mod tables;
mod tracks;
mod turns;

use case_inputs::{Case, place_of};
use std::alloc::{AllocError, Global};

/// The calls of this part.
pub(crate) const CALLS: [&str; 7] = ["route", "costs", "job", "reply", "table", "shelf", "near"];

/// The place of the call of a case.
fn call_of(case: &Case) -> usize {
    place_of(&CALLS, case.word(0))
}

/// The answer to a case.
pub(crate) fn answer(alloc: Global, case: &Case) -> Result<Vec<u8>, AllocError> {
    match call_of(case) {
        5 => shelves::answer(alloc, case),
        _ => answers::answer(alloc, case),
    }
}
