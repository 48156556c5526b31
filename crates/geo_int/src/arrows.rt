//! The arrow from one place to another.

ghost use Rattle.std.specs.Prelude.{◌≡◌, ◌≤◌, ◌<◌, ◌↔◌, IsNone, IfSome, unsigned_abs};
ghost use Rattle.geo_int.specs.Arrow.{arrow_between, arrow_of, length_between, east_part, middle_latitude, east_between, north_between, square_sum, IsArrow};
ghost use Rattle.geo_int.specs.Spot.{place_of};

use crate::cosines::cos_lat;
use crate::offsets::Arrow;
use crate::roots::floor_root;
use crate::spots::Spot;

/// The arrow from `a` to `b`, none where it is longer than 100 kilometres. Its parts are in
/// millimetres, the one to the east by the cosine of the latitude halfway.
pub fn arrow(a: Spot, b: Spot) -> Option<Arrow>
    ensures exact { result ≡ arrow_between (place_of a) (place_of b) }
    ensures refused { IsNone result ↔ (100000000 < length_between (place_of a) (place_of b)) }
    ensures lawful { IfSome result IsArrow }
{
    let found = measured(east(a, b), north(a, b));
    if found.len > 100_000_000 {
        return None;
    }
    Some(found)
}

/// The arrow of these two parts, however long.
fn measured(dx: i64, dy: i64) -> Arrow
    requires east { unsigned_abs dx ≤ 50000000000 }
    requires north { unsigned_abs dy ≤ 50000000000 }
    ensures exact { result ≡ arrow_of dx dy }
{
    let len = floor_root(sum_of_squares(dx, dy));
    Arrow { dx, dy, len }
}

/// How many millimetres `b` lies east of `a`.
pub(crate) fn east(a: Spot, b: Spot) -> i64
    ensures exact { result ≡ east_between (place_of a) (place_of b) }
    ensures within { unsigned_abs result ≤ 50000000000 }
{
    scaled_east(b.lon() - a.lon(), cos_lat(middle(a, b)))
}

/// How many millimetres `b` lies north of `a`.
pub(crate) fn north(a: Spot, b: Spot) -> i64
    ensures exact { result ≡ north_between (place_of a) (place_of b) }
    ensures within { unsigned_abs result ≤ 50000000000 }
{
    (b.lat() - a.lat()) * 11_132 / 100
}

/// The latitude halfway between two places, rounded down.
fn middle(a: Spot, b: Spot) -> i64
    ensures exact { result ≡ middle_latitude (place_of a) (place_of b) }
    ensures within { unsigned_abs result ≤ 90000000 }
{
    (a.lat() + b.lat()).div_euclid(2)
}

/// Products of 128 bits are divided only where the difference is above 800,000 microdegrees: that
/// is much slower.
fn scaled_east(degrees: i64, cosine: i64) -> i64
    requires degrees { unsigned_abs degrees ≤ 360000000 }
    requires cosine { unsigned_abs cosine ≤ 1000000000 }
    ensures exact { result ≡ east_part degrees cosine }
    ensures within { unsigned_abs result ≤ 50000000000 }
{
    if degrees >= -800_000 && degrees <= 800_000 {
        degrees * 11_132 * cosine / 100_000_000_000
    } else {
        (degrees as i128 * 11_132 * cosine as i128 / 100_000_000_000) as i64
    }
}

/// The sum of the squares of two parts.
fn sum_of_squares(dx: i64, dy: i64) -> u128
    requires east { unsigned_abs dx ≤ 50000000000 }
    requires north { unsigned_abs dy ≤ 50000000000 }
    ensures exact { result ≡ square_sum dx dy }
{
    let east = dx.unsigned_abs() as u128;
    let north = dy.unsigned_abs() as u128;
    east * east + north * north
}
