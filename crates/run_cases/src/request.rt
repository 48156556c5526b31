//! Cases of queries, heads and frames.

mod heads;
mod queries;

use crate::told::unknown;
use case_inputs::{Case, place_of};
use std::alloc::{AllocError, Global};

/// The calls of this part.
const CALLS: [&str; 4] = ["query", "head", "fed", "frame"];

/// The answer to a case, also to one whose call no part knows.
pub(crate) fn answer(alloc: Global, case: &Case) -> Result<Vec<u8>, AllocError> {
    match place_of(&CALLS, case.word(0)) {
        0 => queries::answer(alloc, case),
        1 => heads::of_head(alloc, case),
        2 => heads::of_fed(alloc, case),
        3 => heads::of_frame(alloc, case),
        _ => unknown(alloc),
    }
}
