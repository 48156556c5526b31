//! Where a run stops.

use fixed_num::Arith;

/// A fault of arithmetic in the value of a variable: the place of its assignment in its section,
/// from 0.
#[derive(Clone, Copy)]
pub struct Fault {
    pub variable: u32,
    pub kind: Arith,
}
