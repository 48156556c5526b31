//! Whether a circle touches the straight way between two places.

ghost use Rattle.std.specs.Prelude.{◌≡◌, ◌≤◌, ◌*◌, ℕ, ◌&&◌, int_le, nat_le, unsigned_abs, IsTrue, ◌*ℤ◌};
ghost use Rattle.geo_int.specs.Spot.{place_of};
ghost use Rattle.geo_int.specs.Circle.{circle_touches, way_touches, end_touches, line_touches, foot, way_square, offset_between, IsWithin, is_near, difference, dot, cross};

use crate::arrows::{east, north};
use crate::spots::Spot;

/// How far a place lies from a circle's centre, in millimetres.
#[derive(Clone, Copy)]
pub(crate) struct Offset {
    pub(crate) east: i64,
    pub(crate) north: i64,
}

/// Whether the circle of this centre and radius in millimetres touches the straight way between `a`
/// and `b`. One with an end more than 300 kilometres from the centre in either part is not touched.
pub fn touches(a: Spot, b: Spot, centre: Spot, radius: u64) -> bool
    requires fits { radius ≤ 100000000 }
    ensures exact { result ≡ circle_touches (place_of a) (place_of b) (place_of centre) radius }

    // What follows from the definition: the way back is touched too, and so is it by every larger
    // circle.
    ensures same { circle_touches (place_of b) (place_of a) (place_of centre) radius ≡ result }
    ensures grows { (larger : ℕ) → radius ≤ larger → IsTrue result →
        IsTrue (circle_touches (place_of a) (place_of b) (place_of centre) larger) }
{
    let first = seen_from(centre, a);
    let second = seen_from(centre, b);
    if !near(first, second) {
        return false;
    }
    touches_near(first, second, radius * radius)
}

/// The parts of the arrow from a centre to a place, however long.
fn seen_from(centre: Spot, at: Spot) -> Offset
    ensures exact { result ≡ offset_between (place_of centre) (place_of at) }
{
    Offset {
        east: east(centre, at),
        north: north(centre, at),
    }
}

/// Whether both ends are near enough to be looked at.
fn near(a: Offset, b: Offset) -> bool
    ensures exact { result ≡ (is_near a && is_near b) }
{
    (is_part_near(a.east) & is_part_near(a.north)) & (is_part_near(b.east) & is_part_near(b.north))
}

/// Whether one part is near enough.
fn is_part_near(part: i64) -> bool
    ensures exact { result ≡ nat_le (unsigned_abs part) 300000000 }
{
    part.unsigned_abs() <= 300_000_000
}

/// The test for two offsets that are near, by the square of the radius.
fn touches_near(a: Offset, b: Offset, square: u64) -> bool
    requires a { IsWithin 300000000 a }
    requires b { IsWithin 300000000 b }
    requires square { square ≤ 10000000000000000 }
    ensures exact { result ≡ way_touches a b square }
{
    let along = foot_along(a, b);
    if along <= 0 {
        end_is_within(a, square)
    } else if along >= square_of_way(a, b) {
        end_is_within(b, square)
    } else {
        line_is_within(a, b, square)
    }
}

/// How far along the way the foot of the centre lies, times the length of the way.
fn foot_along(a: Offset, b: Offset) -> i64
    requires a { IsWithin 300000000 a }
    requires b { IsWithin 300000000 b }
    ensures exact { result ≡ foot a b }
{
    -product(a, step(a, b))
}

/// The square of the way's length.
fn square_of_way(a: Offset, b: Offset) -> i64
    requires a { IsWithin 300000000 a }
    requires b { IsWithin 300000000 b }
    ensures exact { result ≡ way_square a b }
    ensures within { unsigned_abs result ≤ 720000000000000000 }
{
    let way = step(a, b);
    product(way, way)
}

/// Whether an end lies within the circle whose radius has this square.
fn end_is_within(a: Offset, square: u64) -> bool
    requires a { IsWithin 300000000 a }
    requires square { square ≤ 10000000000000000 }
    ensures exact { result ≡ end_touches a square }
{
    product(a, a) <= square as i64
}

/// The height of a triangle is its doubled area by its base: both sides are squares times the
/// square of the base.
fn line_is_within(a: Offset, b: Offset, square: u64) -> bool
    requires a { IsWithin 300000000 a }
    requires b { IsWithin 300000000 b }
    requires square { square ≤ 10000000000000000 }
    ensures exact { result ≡ line_touches a b square }
{
    is_square_within(area(a, b), square as i64, square_of_way(a, b))
}

/// From the first offset to the second.
fn step(a: Offset, b: Offset) -> Offset
    requires a { IsWithin 300000000 a }
    requires b { IsWithin 300000000 b }
    ensures exact { result ≡ difference a b }
    ensures within { IsWithin 600000000 result }
{
    Offset {
        east: b.east - a.east,
        north: b.north - a.north,
    }
}

/// The sum of the products of the parts.
fn product(a: Offset, b: Offset) -> i64
    requires a { IsWithin 600000000 a }
    requires b { IsWithin 600000000 b }
    ensures exact { result ≡ dot a b }
    ensures within { unsigned_abs result ≤ 720000000000000000 }
{
    a.east * b.east + a.north * b.north
}

/// Twice the area between two offsets, with its sign.
fn area(a: Offset, b: Offset) -> i64
    requires a { IsWithin 300000000 a }
    requires b { IsWithin 300000000 b }
    ensures exact { result ≡ cross a b }
    ensures within { unsigned_abs result ≤ 180000000000000000 }
{
    a.east * b.north - a.north * b.east
}

/// Compares in 128 bits, where no product of these can overflow.
fn is_square_within(area: i64, reach: i64, base: i64) -> bool
    requires area { unsigned_abs area ≤ 180000000000000000 }
    requires reach { unsigned_abs reach ≤ 10000000000000000 }
    requires base { unsigned_abs base ≤ 720000000000000000 }
    ensures exact { result ≡ int_le (area *ℤ area) (reach *ℤ base) }
{
    let area = area as i128;
    area * area <= reach as i128 * base as i128
}
