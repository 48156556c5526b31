//! Texts of maps, in whatever pieces, what comes of them, and which links circles cut.

pub(crate) mod circles;
pub(crate) mod drafts;
pub(crate) mod pieces;
pub(crate) mod shown;
