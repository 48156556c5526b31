//! The walks of a leg as a space to search, whose lower bound is that of a hierarchy.
#![tactic(auto)]

mod space;
mod walks;

pub use space::GuidedSpace;
