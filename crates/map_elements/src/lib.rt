//! The elements of a map's text, read from its JSON steps.
#![tactic(auto)]

mod elements;
mod fields;
mod front;
mod place;
mod progress;
mod reader;
mod reading;
mod steps;
mod trees;

pub use elements::{Element, read_element};
pub use reader::DraftReader;
pub use steps::StepList;
pub use trees::{entries_of_a_tree, steps_of_a_tree};
