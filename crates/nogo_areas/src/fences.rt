//! For each edge of the globe a table that tells which circles a way may be touched by.

ghost use Rattle.std.specs.Prelude.{◌≡◌, length};

use crate::circle::Circle;
use crate::masks::{bounds, masks};
use crate::scale::Scale;
use crate::sides::{Side, along};
use geo_int::Spot;
use std::alloc::{AllocError, Global};

/// The circles that are reached from one edge on, a bit for each of the first 64.
#[derive(Drop)]
pub(crate) struct Fence {
    pub(crate) masks: Vec<u64>,
    pub(crate) scale: Scale,
    pub(crate) side: Side,
    ghost long: { length masks.items ≡ 1024 },
}

impl Fence {
    ghost use Rattle.std.specs.Prelude.{List, IfOk};
    ghost use Rattle.nogo_areas.specs.Fences.{Clears, IsFence};
    ghost use Rattle.nogo_areas.specs.declared.circle.Circle.{Circle};

    /// The table for these circles.
    pub(crate) fn new(alloc: Global, side: Side, circles: &[Circle]) -> Result<Fence, AllocError>
        ensures sound { IfOk result
            (λ fence. IsFence fence.side fence.scale fence.masks.items circles.now) }
    {
        let bounds = bounds(alloc, side, circles)?;
        let scale = Scale::over(&bounds);
        let masks = masks(alloc, scale, &bounds)?;
        Ok(Fence { side, scale, masks })
    }

    /// The circles that are reached by a way between two spots.
    pub(crate) fn mask(&self, a: Spot, b: Spot) -> u64
        ensures clears { (circles : List Circle) →
            IsFence self.now.side self.now.scale self.now.masks.items circles
            → Clears circles a b result }
    {
        let farther = along(self.side, a).max(along(self.side, b));
        self.masks[self.scale.step(farther)]
    }
}
