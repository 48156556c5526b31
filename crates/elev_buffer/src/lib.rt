//! Climbing buffers: what a step pays and keeps, when one label makes another needless or
//! supersedes it, and the numbers by which a search passes over labels.
#![tactic(auto)]

mod labels;
mod newer;
mod orders;
mod slots;
mod steps;
mod sums;

pub use labels::{Mode, Modes, Pair};
pub use newer::supersedes;
pub use orders::{covers, covers_all};
pub use slots::{slot_of, slots_of};
pub use steps::{Limits, Stepped, step};
pub use sums::{Sums, sums_of};
