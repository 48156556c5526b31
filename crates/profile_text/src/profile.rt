//! A profile and its assignments.

use crate::expr::Expr;
use item_list::{Items, Name};

/// An assignment, with the line of its name.
pub struct Assign {
    pub name: Name,
    pub line: u32,
    pub value: Expr,
}

impl Drop for Assign {
    fn drop(self) {
        let Assign {
            name: _,
            line: _,
            value: _,
        } = self;
    }
}

/// The assignments of the three sections, each in the order of the text.
pub struct Profile {
    pub global: Items<Assign>,
    pub way: Items<Assign>,
    pub node: Items<Assign>,
}

impl Drop for Profile {
    fn drop(self) {
        let Profile {
            global: _,
            way: _,
            node: _,
        } = self;
    }
}
