//! Why an expression has no value.

use fixed_num::Arith;

/// Why an expression has no value.
#[derive(Clone, Copy)]
pub(crate) enum Fault {
    /// A variable, a tag or a value that isn't known, on this line.
    Unknown(u32),
    /// A fault of arithmetic.
    Faulty(Arith),
}
