//! Why an operation on numbers has no result.

/// The two faults of the four operations.
#[derive(Clone, Copy)]
pub enum Arith {
    /// The divisor is 0. Only `Num::div` gives it.
    DivZero,
    /// The exact result, cut to a whole millionth, is beyond 10^15 millionths either way.
    TooLarge,
}
