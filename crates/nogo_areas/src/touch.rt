//! All four edges, and the test of a way.

ghost use Rattle.std.specs.Prelude.{◌≡◌, List, ◌<◌, IfOk, false};
ghost use Rattle.geo_int.specs.Spot.{place_of};
ghost use Rattle.std.specs.Int.{bit_at};
ghost use Rattle.nogo_areas.specs.Cuts.{any_touches, touches_way};
ghost use Rattle.nogo_areas.specs.Fences.{AreFences, Clears};
ghost use Rattle.nogo_areas.specs.declared.circle.Circle.{Circle};

use crate::circle::Circle;
use crate::fences::Fence;
use crate::sides::Side;
use geo_int::{Spot, touches};
use std::alloc::{AllocError, Global};

/// What is known of circles from each edge.
pub(crate) struct Fences {
    pub(crate) south: Fence,
    pub(crate) north: Fence,
    pub(crate) west: Fence,
    pub(crate) east: Fence,
}

impl Drop for Fences {
    fn drop(self) {
        let Fences {
            south: _,
            north: _,
            west: _,
            east: _,
        } = self;
    }
}

impl Fences {
    /// The tables for these circles.
    pub(crate) fn new(alloc: Global, circles: &[Circle]) -> Result<Fences, AllocError>
        ensures sound { IfOk result (AreFences circles.now) }
    {
        Ok(Fences {
            south: Fence::new(alloc, Side::South, circles)?,
            north: Fence::new(alloc, Side::North, circles)?,
            west: Fence::new(alloc, Side::West, circles)?,
            east: Fence::new(alloc, Side::East, circles)?,
        })
    }

    /// Which of the first 64 circles may touch the way between two spots.
    pub(crate) fn mask(&self, a: Spot, b: Spot) -> u64
        ensures clears { (circles : List Circle) → AreFences circles self.now →
            Clears circles a b result }
    {
        self.south.mask(a, b) & self.north.mask(a, b) & self.west.mask(a, b) & self.east.mask(a, b)
    }

    /// Whether a circle touches the way between two spots.
    pub(crate) fn touch(&self, circles: &[Circle], a: Spot, b: Spot) -> bool
        requires sound { AreFences circles.now self.now }
        ensures exact { result ≡ any_touches (place_of a) (place_of b) circles.now }
    {
        let mask = self.mask(a, b);
        if mask == 0 && circles.len() <= 64 {
            return false;
        }
        touch_masked(mask, circles, a, b)
    }
}

/// The same, where only the circles of a mask are looked at, and those behind the first 64.
fn touch_masked(mask: u64, circles: &[Circle], a: Spot, b: Spot) -> bool
    requires clears { Clears circles.now a b mask }
    ensures exact { result ≡ any_touches (place_of a) (place_of b) circles.now }
{
    'circles: for k in 0..circles.len() {
        if touches_masked(mask, k, circles[k], a, b) {
            return true;
        }
    }
    false
}

/// Whether a circle touches the way between two spots, if its bit is set or it has none.
fn touches_masked(mask: u64, k: usize, circle: Circle, a: Spot, b: Spot) -> bool
    requires clear { k < 64 → bit_at mask k ≡ 0 →
        touches_way (place_of a) (place_of b) circle ≡ false }
    ensures exact { result ≡ touches_way (place_of a) (place_of b) circle }
{
    if k < 64 && (mask >> k) & 1 == 0 {
        return false;
    }
    touches(a, b, circle.centre, circle.radius)
}
