//! The least numbers of labels: what covers a state has none greater.

ghost use Rattle.std.specs.Prelude.{◌↔◌, IsTrue};
ghost use Rattle.route_certificate.specs.Index.{IsLower, low_at};

use space_search::Point;

/// The numbers of a label, or the least of several: their points', and their costs'.
#[derive(Clone, Copy)]
pub(crate) struct Low {
    pub(crate) point: Point,
    pub(crate) cost: u128,
}

impl Low {
    /// Whether it has no number greater than a point and a cost.
    pub(crate) fn is_lower(&self, point: &Point, cost: u128) -> bool
        ensures exact { IsTrue result ↔ IsLower self.now (low_at point.now cost) }
    {
        let lows = &self.point;
        (self.cost <= cost) & (lows.x <= point.x) & (lows.y <= point.y) & (lows.z <= point.z)
    }

    /// The least of both in each number.
    pub(crate) fn least(&self, other: &Low) -> Low
        ensures first { IsLower result self.now }
        ensures second { IsLower result other.now }
    {
        let point = Point {
            x: self.point.x.min(other.point.x),
            y: self.point.y.min(other.point.y),
            z: self.point.z.min(other.point.z),
        };
        let cost = self.cost.min(other.cost);
        Low { point, cost }
    }
}
