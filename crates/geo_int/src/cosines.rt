//! The cosine of a latitude in billionths.

ghost use Rattle.std.specs.Prelude.{◌≡◌, ◌≤◌, pos, unsigned_abs};
ghost use Rattle.geo_int.specs.Cosine.{cosine_at, series_term};

const SCALE: u64 = 1_000_000_000;

/// The cosine of a latitude in microdegrees, in billionths.
pub fn cos_lat(lat: i64) -> i64
    requires on_globe { unsigned_abs lat ≤ 90000000 }
    ensures exact { result ≡ pos (cosine_at lat) }
    ensures within { cosine_at lat ≤ 1000000000 }
{
    let angle = lat.unsigned_abs() * 1_745_329_252 / 100_000_000;
    let square = angle * angle / SCALE;
    let fourth = SCALE - square / 90;
    let third = inner_term(square, fourth, 56);
    let second = inner_term(square, third, 30);
    let first = inner_term(square, second, 12);
    SCALE.saturating_sub(square * first / SCALE / 2) as i64
}

/// One of the inner brackets of the series: none falls below 0, since no square of an angle up to
/// 90 degrees is above 2,500,000,000 billionths, a fifth of which is less than 1.
fn inner_term(square: u64, behind: u64, product: u64) -> u64
    requires square { square ≤ 2500000000 }
    requires behind { behind ≤ 1000000000 }
    requires product { 12 ≤ product }
    ensures exact { result ≡ series_term square behind product }
    ensures within { result ≤ 1000000000 }
{
    SCALE - square * behind / SCALE / product
}
