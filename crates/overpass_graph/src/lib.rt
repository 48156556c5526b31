//! The road map of a text: nodes, ways, links and turn restrictions, and walks along links.
#![tactic(auto)]

mod builder;
mod groups;
mod lay;
mod link;
mod making;
mod map;
mod members;
mod names;
mod order;
mod pairs;
mod restriction;
mod restrictions;
mod routes;
mod rows;
mod tag_values;
mod texts;
mod turns;
mod twins;

pub use builder::MapBuilder;
pub use link::Link;
pub use map::Map;
pub use map_tables::{ElementKind, MapCount, MapError};
pub use restriction::{Restriction, RestrictionKind};
pub use twins::twin;
