//! What it costs to come from a node to others: least costs of walks, found by one search in turns.
#![tactic(auto)]

mod endless;
mod found;
mod reach;
mod settling;
mod turn;
mod waiting;
mod want;

pub use reach::Reach;
pub use turn::ReachTurn;
pub use want::Want;
