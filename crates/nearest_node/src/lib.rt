//! The node of a map to which a waypoint is moved.
#![tactic(auto)]

mod ends;
mod index;
mod nearest;
mod rank;

pub use index::NodeIndex;
