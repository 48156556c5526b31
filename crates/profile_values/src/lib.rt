//! The values of a profile's sections for the tag numbers of a way or a node, by a plain walk over
//! its trees.
#![tactic(auto)]

mod assigned;
mod evaluate;
mod fault;
mod operate;
mod scope;
mod value_error;
mod values;
mod vars;

pub use value_error::ValueError;
pub use values::section_values;
pub use vars::Vars;
