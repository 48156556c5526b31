//! Names and tags as lists.

use crate::items::Items;

/// A name as a list of bytes.
pub type Name = Items<u8>;

/// The tags of a way or a node: names with their values.
pub type Tags = Items<(Name, Name)>;
