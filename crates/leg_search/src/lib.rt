//! A search for a walk of a leg in turns, over its links or from junction to junction, put to rest
//! between them.
#![tactic(auto)]

mod anew;
mod guided;
mod opening;
mod raw;
mod search;
mod step;
mod told;
mod turn;

pub use search::{FIRST_LABELS, LegSearch};
pub use turn::LegTurn;
