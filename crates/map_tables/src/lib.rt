//! What the elements of a map's text come to, kept in the order of the file: nodes, ways and
//! relations, each id once.
#![tactic(auto)]

mod content;
mod error;
mod limits;
mod member;
mod members;
mod node_reads;
mod relation_reads;
mod table;
mod tables;
mod tag_lists;
mod way_reads;

pub use error::{ElementKind, MapCount, MapError};
pub use limits::Limits;
pub use member::{Member, MemberLent};
pub use tables::Tables;
