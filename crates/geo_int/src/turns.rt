//! The cosine of a turn from one arrow to the next.

ghost use Rattle.std.specs.Prelude.{◌≡◌, ◌≤◌, ◌<◌, ◌*◌, ◌≤ℤ◌, pos, negsuc, unsigned_abs};
ghost use Rattle.geo_int.specs.Arrow.{IsArrow};
ghost use Rattle.geo_int.specs.Turn.{turn_cosine, arrow_dot, quotient};

use crate::offsets::Arrow;

/// The cosine of the turn from `first` to `second` in millionths, both as `arrow` gives them.
pub fn turn_cos(first: &Arrow, second: &Arrow) -> i64
    requires first { IsArrow first.now }
    requires second { IsArrow second.now }
    ensures exact { result ≡ turn_cosine first.now second.now }

    // What follows from the definition: bounds, the same turn back, and no turn.
    ensures low { negsuc 999999 ≤ℤ result }
    ensures high { result ≤ℤ pos 1000000 }
    ensures same { turn_cosine second.now first.now ≡ result }
    ensures straight { first.now ≡ second.now → result ≡ pos 1000000 }
{
    let lengths = first.len * second.len;
    if lengths == 0 {
        return 1_000_000;
    }
    divided(sum_of_products(first, second), lengths).clamp(-1_000_000, 1_000_000)
}

/// A part of an arrow is no longer than the arrow, so no product of two parts is above that of the
/// lengths.
fn sum_of_products(first: &Arrow, second: &Arrow) -> i64
    requires first { IsArrow first.now }
    requires second { IsArrow second.now }
    ensures exact { result ≡ arrow_dot first.now second.now }
    ensures within { unsigned_abs result ≤ 2 * (first.now.len * second.now.len) }
{
    first.dx * second.dx + first.dy * second.dy
}

/// Products of 128 bits are divided only for arrows of kilometres: that is much slower.
fn divided(dot: i64, lengths: u64) -> i64
    requires positive { 0 < lengths }
    requires lengths { lengths ≤ 10000000000000000 }
    requires within { unsigned_abs dot ≤ 2 * lengths }
    ensures exact { result ≡ quotient dot lengths }
{
    if dot >= -9_000_000_000_000 && dot <= 9_000_000_000_000 {
        dot * 1_000_000 / lengths as i64
    } else {
        (dot as i128 * 1_000_000 / lengths as i128) as i64
    }
}
