//! The hierarchy of a map, and the guides of profiles over it, made in spells of bounded work.
#![tactic(auto)]

mod guide_making;
mod hierarchy_making;

pub use guide_making::GuideMaking;
pub use hierarchy_making::HierarchyMaking;
