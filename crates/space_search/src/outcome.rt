//! How a search ends.

ghost use Rattle.std.specs.Prelude.{◌≡◌, ⊤};

use item_list::Items;
use std::alloc::AllocError;

/// How a search ends.
#[derive(Drop)]
pub enum Outcome<F> {
    /// This is found: of a turn the number of a label, which is a goal of least cost; of a whole
    /// search a least run.
    Found(F),
    /// No run reaches a goal.
    NoWay,
    /// As many labels are settled as the limit allows, and one more would be.
    Budget,
}

/// By hand, since what is derived for a type with parameters is dear to prove.
impl<F: Copy> Clone for Outcome<F> {
    ghost is_clone = { λ x y. y ≡ x };

    ghost is_infallible = { λ _. ⊤ };

    fn clone(&self) -> Result<Outcome<F>, AllocError> {
        Ok(*self)
    }
}

impl<F: Copy> Copy for Outcome<F> {}

/// A run to a goal.
#[derive(Drop)]
pub struct Run {
    /// Its start's number and then its steps' numbers.
    pub choices: Items<u32>,
    /// What it costs.
    pub cost: u128,
}
