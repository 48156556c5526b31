//! How far a spot lies from an edge of the globe, and from where on a circle may touch something.

ghost use Rattle.std.specs.Prelude.{◌≡◌, ℕ, ◌+◌, ◌*◌, ◌/◌, ◌<◌, ◌≤◌, unsigned_abs};
ghost use Rattle.geo_int.specs.Spot.{place_of};
ghost use Rattle.nogo_areas.specs.Sides.{along_of, IsBeyond, narrow_cosine};

use crate::circle::Circle;
use geo_int::Spot;

/// An edge of the globe.
#[derive(Clone, Copy)]
pub(crate) enum Side {
    South,
    North,
    West,
    East,
}

/// How far a spot lies from an edge, in microdegrees.
pub(crate) fn along(side: Side, spot: Spot) -> u32
    ensures value { result ≡ along_of side spot }
    ensures within { result ≤ 360000000 }
{
    match side {
        Side::South => spot.ilat,
        Side::North => 180_000_000 - spot.ilat,
        Side::West => spot.ilon,
        Side::East => 360_000_000 - spot.ilon,
    }
}

/// The circle touches no way between two spots that both lie nearer to the edge.
pub(crate) fn least(side: Side, circle: &Circle) -> u32
    ensures beyond { (distance : ℕ) → distance < result → IsBeyond side circle.now distance }
{
    along(side, circle.centre).saturating_sub(reach(side, circle))
}

/// How far from its centre a circle may touch something on one side, in microdegrees.
fn reach(side: Side, circle: &Circle) -> u32
    ensures beyond { (distance : ℕ) → distance + result < along_of side circle.now.centre
        → IsBeyond side circle.now distance }
{
    match side {
        Side::South => height(circle.radius),
        Side::North => height(circle.radius),
        Side::West => width(circle.centre, circle.radius),
        Side::East => width(circle.centre, circle.radius),
    }
}

/// What is farther north or south, in microdegrees, is farther than the radius.
fn height(radius: u64) -> u32
    requires radius { radius ≤ 100000000 }
    ensures farther { (d : ℕ) → result < d → radius < d * 11132 / 100 }
{
    (radius / 111) as u32
}

/// What is farther east or west, in microdegrees, is farther than the radius wherever the cosine is
/// not below that of the centre's surroundings.
fn width(centre: Spot, radius: u64) -> u32
    requires radius { radius ≤ 100000000 }
    ensures farther { (d cosine : ℕ) → result < d → d ≤ 360000000
        → narrow_cosine (unsigned_abs (place_of centre).lat) ≤ cosine →
        radius < d * 11132 * cosine / 100000000000 }
{
    let cosine = narrow(centre.lat());
    if cosine == 0 {
        return 360_000_000;
    }
    let most = (radius + 1) * 100_000_000_000 / (11_132 * cosine);
    if most > 360_000_000 {
        return 360_000_000;
    }
    most as u32
}

/// No cosine is smaller within 1,350,000 microdegrees of a latitude.
fn narrow(lat: i64) -> u64
    requires on_globe { unsigned_abs lat ≤ 90000000 }
    ensures exact { result ≡ narrow_cosine (unsigned_abs lat) }
    ensures within { result ≤ 1000000000 }
{
    let angle = (lat.unsigned_abs() + 1_350_000) * 1_745_329_252 / 100_000_000;
    let square = angle * angle / 1_000_000_000;
    1_000_000_000_u64.saturating_sub(square / 2)
}
