//! Fixed-point numbers in millionths, the decimal texts that they are read from and written as, and
//! coordinates in microdegrees.
#![tactic(auto)]

mod arithmetic;
mod coordinate;
mod decimal;
mod literal;
mod number;
mod text;

pub use arithmetic::Arith;
pub use coordinate::{CoordError, coord};
pub use literal::NumError;
pub use number::Num;
pub use text::{SixDecimals, append_mil6};
