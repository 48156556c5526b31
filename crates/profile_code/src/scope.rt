//! What the expressions of a section may name.

use lookup_table::{Part, Table};
use profile_text::Names;

/// A part of the tag table.
#[derive(Clone, Copy)]
pub(crate) struct Tags<'a> {
    pub(crate) table: &'a Table,
    pub(crate) part: Part,
}

/// What the expressions of a section may name: tags, where a part of the table belongs to it, and
/// the names of the global section.
#[derive(Clone, Copy)]
pub(crate) struct Scope<'a> {
    pub(crate) tags: Option<Tags<'a>>,
    pub(crate) global: &'a Names,
}
