//! A search for a least run over any space of states, starts and steps.
#![tactic(auto)]

mod begin;
mod blocks;
mod choices;
mod finding;
mod fronts;
mod heads;
mod join;
mod known;
mod label;
mod lists;
mod next;
mod offer;
mod outcome;
mod phase;
mod point;
mod queue;
mod search;
mod settle;
mod space;
mod step;
mod take;
mod turns;

pub use finding::least;
pub use known::Known;
pub use outcome::{Outcome, Run};
pub use phase::Phase;
pub use point::Point;
pub use search::Search;
pub use space::Space;
pub use step::{Step, Steps};
