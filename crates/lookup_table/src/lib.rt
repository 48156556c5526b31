//! The tag table: which tags and values a map's tags are numbered by, read from its text.
#![tactic(auto)]

mod draft;
mod encode;
mod error;
mod finish;
mod line;
mod lines;
mod numbers;
mod part;
mod print;
mod rows;
mod table;
mod tag;
mod words;

pub use error::LookupError;
pub use item_list::{Name, Tags};
pub use numbers::{is_any_set, set_first};
pub use part::Part;
pub use table::Table;
