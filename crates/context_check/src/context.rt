//! What the expressions of a section may name.

use lookup_table::Table;
use profile_text::{Names, Section};

/// A section, the tag table whose part it may look at, and the names of the global section.
#[derive(Clone, Copy)]
pub(crate) struct Context<'a> {
    pub(crate) table: &'a Table,
    pub(crate) section: Section,
    pub(crate) global: &'a Names,
}
