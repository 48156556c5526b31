//! A lower bound of what a ride still has to pay, by a hierarchy over the links of a map.
#![tactic(auto)]

mod collecting;
mod eliminating;
mod entry;
mod guide;
mod hierarchy;
mod holding;
mod leg_bound;
mod map_elimination;
mod pricing;
mod ride_customization;
mod taking;
mod targets;
mod whole;

pub use entry::least_entry;
pub use guide::Guide;
pub use hierarchy::MapHierarchy;
pub use leg_bound::LegBound;
pub use map_elimination::MapElimination;
pub use ride_customization::RideCustomization;
pub use whole::{map_hierarchy, ride_weights};
