//! The tracks of a rider over a map: whether a track is one, what a walk costs, and a row a link.
#![tactic(auto)]

mod check;
mod costs;
mod row;
mod sums;
mod terrain_facts;
mod track;
mod walks;

pub use check::{is_walk_at, recheck};
pub use costs::cost_along;
pub use row::{Row, rows};
pub use sums::{total_cost, total_rank};
pub use track::{Leg, Track};
