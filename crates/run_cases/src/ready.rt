//! Cases of profiles made ready for a world, and of the nodes of waypoints.

mod answers;
mod inputs;
mod points;

pub(crate) use answers::answer;
use case_inputs::{Case, place_of};

/// The calls of this part.
pub(crate) const CALLS: [&str; 4] = ["prepare", "kept", "nodes", "nearest"];

/// The place of the call of a case.
fn call_of(case: &Case) -> usize {
    place_of(&CALLS, case.word(0))
}
