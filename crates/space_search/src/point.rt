//! Where a label lies among those of its slot, by three numbers.

ghost use Rattle.std.specs.Prelude.{◌≡◌, ◌↔◌, IsTrue};
ghost use Rattle.space_search.specs.Rules.{IsUnder};

/// Three numbers of a state at a cost. What covers it has none greater.
#[derive(Clone, Copy)]
pub struct Point {
    pub x: i128,
    pub y: i128,
    pub z: i128,
}

impl Point {
    /// Whether it has no number greater than another.
    #[inline(always)]
    pub(crate) fn is_under(&self, other: &Point) -> bool
        ensures exact { IsTrue result ↔ IsUnder self.now other.now }
    {
        (self.x <= other.x) & (self.y <= other.y) & (self.z <= other.z)
    }

    /// The least of both in each number.
    pub(crate) fn least(&self, other: &Point) -> Point
        ensures first { IsUnder result self.now }
        ensures second { IsUnder result other.now }
    {
        Point {
            x: self.x.min(other.x),
            y: self.y.min(other.y),
            z: self.z.min(other.z),
        }
    }

    /// The greatest of both in each number.
    pub(crate) fn greatest(&self, other: &Point) -> Point
        ensures first { IsUnder self.now result }
        ensures second { IsUnder other.now result }
    {
        Point {
            x: self.x.max(other.x),
            y: self.y.max(other.y),
            z: self.z.max(other.z),
        }
    }

    /// How far it is from another, by the three numbers together.
    pub(crate) fn distance(&self, other: &Point) -> u128
        ensures none { self.now ≡ other.now → result ≡ 0 }
    {
        let x = self.x.abs_diff(other.x);
        let y = self.y.abs_diff(other.y);
        let z = self.z.abs_diff(other.z);
        x.saturating_add(y).saturating_add(z)
    }

    /// Whether it is nearer to the first of two points than to the second in the number in which
    /// these are farthest apart.
    pub(crate) fn is_near(&self, low: &Point, high: &Point) -> bool
        ensures first { self.now ≡ low.now → IsTrue result }
    {
        let x = low.x.abs_diff(high.x);
        let y = low.y.abs_diff(high.y);
        let z = low.z.abs_diff(high.z);
        if x >= y && x >= z {
            self.x.abs_diff(low.x) <= x / 2
        } else if y >= z {
            self.y.abs_diff(low.y) <= y / 2
        } else {
            self.z.abs_diff(low.z) <= z / 2
        }
    }
}
