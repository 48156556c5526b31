//! A clone that takes memory and is equal to what it was made from.

ghost use Rattle.std.specs.Prelude.{◌≡◌, IfOk};

use std::alloc::{AllocError, Global};

/// A value of which an equal one can be made, unless memory runs out.
pub trait TryClone: Sized {
    /// An equal value, made with `alloc`.
    fn try_clone(&self, alloc: Global) -> Result<Self, AllocError>
        ensures same { IfOk result (λ copy. copy ≡ self.now) };
}

impl<A: TryClone + Drop, B: TryClone + Drop> TryClone for (A, B) {
    fn try_clone(&self, alloc: Global) -> Result<(A, B), AllocError> {
        let first = self.0.try_clone(alloc)?;
        let second = self.1.try_clone(alloc)?;
        Ok((first, second))
    }
}
