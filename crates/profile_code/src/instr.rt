//! The operations of flat code.

use fixed_num::Num;
use item_list::Items;
use lookup_table::Name;
use profile_text::Op;

/// A look at a tag: its name and its place in the part, and the numbers that it asks for, ascending
/// and each once.
pub(crate) struct Look {
    pub(crate) name: Name,
    pub(crate) numbers: Items<u16>,
    pub(crate) tag: u32,
}

impl Drop for Look {
    fn drop(self) {
        let Look {
            name: _,
            numbers: _,
            tag: _,
        } = self;
    }
}

/// An operation. A jump says how many operations it passes.
pub(crate) enum Instr {
    /// Pushes a number.
    Number(Num),
    /// Pushes a variable of the section itself, by the place of the assignment that gave its value.
    Own(u32),
    /// Pushes a variable of the global section.
    Global(u32),
    /// Pushes 1 where the tag's number is among those of the look, else 0.
    Look(Look),
    /// Replaces the top by 1 where it is zero, else by 0.
    Not,
    /// Replaces the top by 0 where it is zero, else by 1.
    Truth,
    /// Takes two, and pushes what the operator makes of them.
    Two(Op),
    /// Takes one, and passes so many operations where it is zero.
    JumpZero(usize),
    /// Passes so many operations.
    Jump(usize),
    /// Takes one, and sets the next variable of the section.
    Set,
}

impl Drop for Instr {
    fn drop(self) {
        match self {
            Instr::Number(_) => {}
            Instr::Own(_) => {}
            Instr::Global(_) => {}
            Instr::Look(_) => {}
            Instr::Not => {}
            Instr::Truth => {}
            Instr::Two(_) => {}
            Instr::JumpZero(_) => {}
            Instr::Jump(_) => {}
            Instr::Set => {}
        }
    }
}
