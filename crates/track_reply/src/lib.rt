//! The bytes of a reply to a request: a track as GeoJSON, or as lines of fields.
#![tactic(auto)]

mod arrays;
mod collection;
mod earlier;
mod escapes;
mod lines;
mod numbers;
mod positions;
mod rows;
mod shown;
mod steps;
mod style;
mod sums;
mod tags;

pub use collection::geojson;
pub use escapes::append_escaped;
pub use lines::csv;
pub use numbers::{append_comma, append_sum};
pub use positions::append_position;
pub use shown::Shown;
