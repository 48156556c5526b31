//! A no-go circle.

ghost use Rattle.std.specs.Prelude.{◌≤◌};

use geo_int::Spot;
use item_list::TryClone;
use std::alloc::{AllocError, Global};

/// A circle whose inside nobody rides through. Whoever makes one has tested its radius.
#[derive(Clone, Copy)]
pub struct Circle {
    /// The centre.
    pub centre: Spot,
    /// The radius in millimetres, at most 100 kilometres.
    pub radius: u64,
    ghost within_radius: { radius ≤ 100000000 },
}

impl TryClone for Circle {
    fn try_clone(&self, _alloc: Global) -> Result<Circle, AllocError> {
        Ok(*self)
    }
}
