//! Least sums by node.

ghost use Rattle.std.specs.Prelude.{◌≡◌, ◌<◌, IfSome, length};
ghost use Rattle.least_sums.specs.Sums.{SUM_BOUND, sum_of};

use crate::amount::{NARROW_FAR, WIDE_FAR};
use item_list::Paged;
use std::marker::Model;

/// Sums by node, as narrow as they fit.
#[derive(Drop)]
pub(crate) enum Kept {
    Narrow(Paged<u64>),
    Wide(Paged<u128>),
    /// Those below the radius, which stands for all others.
    Near { sums: Paged<u64>, radius: u64 },
}

/// The least sum of each node of a map, or none; or up to a radius alone, which then stands for
/// every sum that is no less.
pub struct Sums {
    pub(crate) kept: Kept,
}

impl Drop for Sums {
    fn drop(self) {
        let Sums { kept: _ } = self;
    }
}

impl Model for Sums {
    ghost use Rattle.least_sums.specs.Keeping.{kept_sums, kept_value};
    ghost use Rattle.least_sums.specs.Sums.{AreBelow, NodeSums};

    ghost Value = { NodeSums };

    ghost view = { λ s. kept_value s.kept };

    ghost invariant = { λ s. AreBelow (kept_sums s.kept) };
}

impl Sums {
    /// The radius up to which sums were found; none where all were.
    pub fn radius(&self) -> Option<u128>
        ensures value { result ≡ self.now.radius }
    {
        match &self.kept {
            Kept::Near { radius, .. } => Some(*radius as u128),
            _ => None,
        }
    }

    /// The sum of a node: the least one, none where no walk leads from it to the target; up to a
    /// radius the least one or the radius, whichever is less.
    pub fn of(&self, node: u32) -> Option<u128>
        requires in_range { node < length self.now.sums }
        ensures value { result ≡ sum_of self.now.sums node }
        ensures small { IfSome result (λ sum. sum < SUM_BOUND) }
    {
        match &self.kept {
            Kept::Narrow(sums) => {
                let sum = sums.get(node as usize);
                if sum < NARROW_FAR {
                    Some(sum as u128)
                } else {
                    None
                }
            }
            Kept::Wide(sums) => {
                let sum = sums.get(node as usize);
                if sum < WIDE_FAR { Some(sum) } else { None }
            }
            Kept::Near { sums, radius } => {
                let sum = sums.get(node as usize);
                let radius = *radius;
                if sum < radius {
                    Some(sum as u128)
                } else {
                    Some(radius as u128)
                }
            }
        }
    }
}
