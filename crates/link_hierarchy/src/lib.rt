//! Least sums over a hierarchy of directed links.
#![tactic(auto)]

mod arcs;
mod chain;
mod customize;
mod down;
mod elimination;
mod joining;
mod limits;
mod merge;
mod numbers;
mod potentials;
mod rows;
mod topology;
mod weights;
mod whole;

pub use arcs::Arc;
pub use customize::{Customization, customized};
pub use elimination::Elimination;
pub use limits::FAR;
pub use potentials::Potentials;
pub use rows::Rows;
pub use topology::Topology;
pub use weights::Weights;
pub use whole::least_sum;
