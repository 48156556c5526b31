//! Coordinates in microdegrees.
ghost use Rattle.std.specs.Prelude.{◌≡◌, ℤ, pos, ◌≤◌, ◌≤ℤ◌, ◌<◌, ◌↔◌, IfOk, unsigned_abs};
ghost use Rattle.fixed_num.specs.Coordinate.{IsCoordinate, coordinate_of};
ghost use Rattle.fixed_num.specs.Decimal.{IsSpelled, rounded_millionths, value_from};
ghost use Rattle.fixed_num.specs.Text.{mil6};

use crate::decimal::{Parts, signed};

/// Why a text is no coordinate.
#[derive(Clone, Copy)]
pub enum CoordError {
    /// The text isn't an optional `-`, digits, and an optional point with digits.
    NotDecimal,
    /// The rounded coordinate is beyond the most either way.
    OutOfRange,
}

/// The coordinate of a text in degrees, as microdegrees: rounded half up at the sixth decimal
/// before the sign is applied. It is at most `most` microdegrees either way.
pub fn coord(text: &[u8], most: i64) -> Result<i64, CoordError>
    requires positive { pos 0 ≤ℤ most }
    requires fits { most ≤ℤ pos 180000000 }

    ensures exact { result ≡ coordinate_of most text.now }
    ensures found { IfOk result (λ n.
        IsCoordinate text.now n × (unsigned_abs n ≤ unsigned_abs most)) }
    ensures only { (n : ℤ) → IsCoordinate text.now n → unsigned_abs n ≤ unsigned_abs most →
        result ≡ Ok n }
    // The text that is printed of a coordinate is read as that coordinate.
    ensures reread { (n : ℤ) → unsigned_abs n ≤ unsigned_abs most → text.now ≡ mil6 n →
        result ≡ Ok n }

    ensures not_decimal { (result ≡ Err CoordError.NotDecimal) ↔ ¬ IsSpelled text.now }
    ensures out_of_range { (result ≡ Err CoordError.OutOfRange)
        ↔ ((n : ℤ) × IsCoordinate text.now n × (unsigned_abs most < unsigned_abs n)) }
{
    coordinate(text, most)
}

/// The coordinate of a text in degrees.
fn coordinate(text: &[u8], most: i64) -> Result<i64, CoordError>
    requires positive { pos 0 ≤ℤ most }
    requires fits { most ≤ℤ pos 180000000 }
    ensures exact { result ≡ coordinate_of most text.now }
{
    match Parts::of(text) {
        None => Err(CoordError::NotDecimal),
        Some(parts) => place_of(&parts, most),
    }
}

/// The coordinate of a text's parts.
fn place_of(parts: &Parts, most: i64) -> Result<i64, CoordError>
    requires positive { pos 0 ≤ℤ most }
    requires fits { most ≤ℤ pos 180000000 }
    ensures exact { let limit = unsigned_abs most in
        result
        ≡ value_from rounded_millionths limit CoordError.NotDecimal CoordError.OutOfRange
        (Some parts.now) }
{
    let size = parts.rounded();
    if size <= most as u64 {
        Ok(signed(parts.is_negative(), size))
    } else {
        Err(CoordError::OutOfRange)
    }
}
