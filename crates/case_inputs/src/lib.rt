//! Tables of cases as text: a call with its words and the answer that is wanted, one a line; and what
//! the words come to: a tag table, a profile and its code, a map, and tiles of heights.
#![tactic(auto)]

mod case;
mod escape;
mod ground;
mod places;
mod report;
mod samples;
mod table;
mod texts;

pub use case::Case;
pub use ground::tiles_of;
pub use places::place_of;
pub use report::Report;
pub use samples::{GATE, LOOK, TREK};
pub use table::Table;
pub use texts::{code_of, code_with, map_of, profile_of, table_of};
