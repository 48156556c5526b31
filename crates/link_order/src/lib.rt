//! The order in which the links of a map are eliminated in a hierarchy: chains first, then the
//! junctions by nested dissection.
#![tactic(auto)]

mod cells;
mod chains;
mod dissection;
mod flow;
mod junctions;
mod link_order;
mod lists;
mod ordering;
mod placing;
mod samples;

pub use link_order::LinkOrder;
pub use ordering::Ordering;
