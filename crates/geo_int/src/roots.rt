//! The whole part of a square root.

ghost use Rattle.std.specs.Prelude.{◌≡◌, ◌+◌, ◌*◌, ◌<◌, ◌≤◌};
ghost use Rattle.geo_int.specs.Root.{whole_root};

use std::num::{nearest_u64_to_f64, saturating_f64_to_u64};

/// The greatest whole number whose square is at most `n`.
pub fn floor_root(n: u128) -> u64
    ensures exact { result ≡ whole_root n }
    ensures below { result * result ≤ n }
    ensures next { n < (result + 1) * (result + 1) }
{
    if n <= u64::MAX as u128 {
        root_of_word(n as u64)
    } else {
        n.isqrt() as u64
    }
}

/// The float root of a number this small is seldom off, and never by more than one: it is tested,
/// and what fails the test is rooted in whole numbers.
fn root_of_word(n: u64) -> u64
    ensures below { result * result ≤ n }
    ensures next { n < (result + 1) * (result + 1) }
{
    let guess = saturating_f64_to_u64(nearest_u64_to_f64(n).sqrt());
    if guess < 4_294_967_296 {
        let square = guess * guess;
        if square <= n && n - square <= 2 * guess {
            return guess;
        }
    }
    n.isqrt()
}
