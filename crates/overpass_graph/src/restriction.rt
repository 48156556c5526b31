//! Turn restrictions.

use item_list::Items;

/// How a restriction is to be read.
#[derive(Clone, Copy, Drop)]
pub enum RestrictionKind {
    /// From its first ways none may go on to its second ways.
    No,
    /// From its first ways one may go on to its second ways alone.
    Only,
}

/// A turn restriction: at a node, from some ways, to some ways.
pub struct Restriction {
    /// How it is to be read.
    pub kind: RestrictionKind,
    /// The node at which it holds.
    pub via: u32,
    /// The ways that lead to the node.
    pub from: Items<u32>,
    /// The ways that go on from it.
    pub to: Items<u32>,
}

impl Drop for Restriction {
    fn drop(self) {
        let Restriction {
            kind: _,
            via: _,
            from: _,
            to: _,
        } = self;
    }
}
