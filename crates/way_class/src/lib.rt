//! The facts of a map's links by a profile, worked out once for each distinct vector of tag
//! numbers.
#![tactic(auto)]

mod binder;
mod binding;
mod bound;
mod charge;
mod charges;
mod classes;
mod error;
mod height;
mod heights;
mod lookups;
mod lows;
mod nodes;
mod pace;
mod paired;
mod row;
mod rows;
mod side;
mod sides;
mod ways;

pub use binder::Binder;
pub use binding::bind;
pub use bound::Bound;
pub use error::{BindError, WayName};
