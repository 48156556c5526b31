//! What the variables of a section are called.

use profile_text::{Names, Section};

/// What the variables of a section are called: the section, its names, and those of the global one.
#[derive(Clone, Copy)]
pub(crate) struct Labels<'a> {
    pub(crate) own: &'a Names,
    pub(crate) global: &'a Names,
    pub(crate) section: Section,
}
