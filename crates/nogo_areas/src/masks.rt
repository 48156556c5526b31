//! Which of the first 64 circles are reached on each step of a scale.

ghost use Rattle.std.specs.Prelude.{◌≡◌, ℕ, ◌<◌, IfOk, length, get_or};
ghost use Rattle.nogo_areas.specs.Fences.{AreBounds, HasReached};

use crate::circle::Circle;
use crate::scale::Scale;
use crate::sides::{Side, least};
use std::alloc::{AllocError, Global};

/// For each circle how near to an edge it may touch something.
pub(crate) fn bounds(alloc: Global, side: Side, circles: &[Circle]) -> Result<Vec<u32>, AllocError>
    ensures sound { IfOk result (λ bounds. AreBounds side circles.now bounds.items) }
{
    let mut bounds = Vec::new(alloc);
    'circles: for circle in circles {
        bounds.push(least(side, circle))?;
    }
    Ok(bounds)
}

/// The masks of all steps.
pub(crate) fn masks(alloc: Global, scale: Scale, bounds: &[u32]) -> Result<Vec<u64>, AllocError>
    ensures long { IfOk result (λ masks. length masks.items ≡ 1024) }
    ensures sound { IfOk result (λ masks. (step : ℕ) → step < 1024
        → HasReached scale bounds.now step (get_or masks.items step 0)) }
{
    let mut masks = Vec::new(alloc);
    'steps: for step in 0..1024_usize {
        masks.push(reached(scale, bounds, step))?;
    }
    Ok(masks)
}

/// The circles that are reached on a step.
fn reached(scale: Scale, bounds: &[u32], step: usize) -> u64
    ensures sound { HasReached scale bounds.now step result }
{
    let mut mask = 0_u64;
    'bounds: for k in 0..bounds.len().min(64) {
        if scale.step(bounds[k]) <= step {
            mask = mask | (1 << k);
        }
    }
    mask
}
