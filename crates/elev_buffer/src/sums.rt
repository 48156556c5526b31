//! Three numbers of a label by which covering goes.

ghost use Rattle.std.specs.Prelude.{◌≡◌, ◌<◌, ◌^◌, ℤ, pos};
ghost use Rattle.elev_buffer.specs.Covers.{CoversLabel, IsBuffer, IsPair, Label, label, terms};
ghost use Rattle.elev_buffer.specs.Sums.{IsNoMoreInSums, both_by, down_by, shared_both, sum_by, sums_of};

use crate::labels::{Mode, Modes, Pair};
use crate::newer::{price, rate};
use crate::slots::{asks_equal, is_equal, shared_part};

/// Three numbers of a label by which covering goes: its cost with the price of its descent, of its
/// climb, and of both. Where money can't make up for a buffer, that buffer itself stands in place
/// of its sum, and it adds nothing to the third. Where a buffer must be equal, all that must be is
/// one number, which stands in place of the first such sum, and negative in place of the third: so
/// of two labels that differ in it each has a greater number.
#[derive(Clone, Copy)]
pub struct Sums {
    pub down: i128,
    pub up: i128,
    pub both: i128,
}

/// The three numbers of the label of the buffers `a` and the cost `ca`, where `kd` and `ku` are the
/// prices of a micrometre of descent and of climb in millionths. What covers it has none greater.
pub fn sums_of(a: &Pair, ca: u128, kd: i64, ku: i64, modes: &Modes) -> Sums
    requires first { IsPair a.now }
    requires first_cost { ca < 2 ^ 126 }
    requires down_rate { IsBuffer kd }
    requires up_rate { IsBuffer ku }
    ensures exact { result ≡ sums_of (terms modes.now kd ku) (label a.now (pos ca)) }
    ensures grows { (other : Label) →
        CoversLabel (terms modes.now kd ku) other (label a.now (pos ca)) →
        IsNoMoreInSums (sums_of (terms modes.now kd ku) other) result }
{
    Sums {
        down: down_by(a, ca, kd, modes),
        up: sum_by(modes.up, ku, ca, a.up),
        both: both_by(a, ca, kd, ku, modes),
    }
}

/// The cost with the price of the first buffer, or that buffer; where it must be equal, all that
/// must be equal.
fn down_by(a: &Pair, ca: u128, kd: i64, modes: &Modes) -> i128
    requires first { IsPair a.now }
    requires first_cost { ca < 2 ^ 126 }
    requires down_rate { IsBuffer kd }
    ensures exact { (ku : ℤ) → result ≡ down_by (terms modes.now kd ku) (label a.now (pos ca)) }
{
    if is_equal(modes.down) {
        return shared_both(a, modes) as i128;
    }
    sum_by(modes.down, kd, ca, a.down)
}

/// What must be equal of both buffers, as one number.
fn shared_both(a: &Pair, modes: &Modes) -> u128
    requires first { IsPair a.now }
    ensures exact { result ≡ shared_both modes.now a.now }
    ensures within { result < 2 ^ 101 }
{
    shared_part(modes.down, a.down) as u128 * (1 << 50) + shared_part(modes.up, a.up) as u128
}

/// The cost with the prices of both buffers; where one must be equal, what must be equal, negative.
fn both_by(a: &Pair, ca: u128, kd: i64, ku: i64, modes: &Modes) -> i128
    requires first { IsPair a.now }
    requires first_cost { ca < 2 ^ 126 }
    requires down_rate { IsBuffer kd }
    requires up_rate { IsBuffer ku }
    ensures exact { result ≡ both_by (terms modes.now kd ku) (label a.now (pos ca)) }
{
    if asks_equal(modes) {
        return -(shared_both(a, modes) as i128);
    }
    let down = price(rate(modes.down, kd), a.down);
    let up = price(rate(modes.up, ku), a.up);
    (ca + down + up) as i128
}

/// The cost with the price of a buffer, and the buffer itself where money can't make up for it.
fn sum_by(mode: Mode, rate: i64, cost: u128, buffer: i64) -> i128
    requires rate { IsBuffer rate }
    requires cost { cost < 2 ^ 126 }
    requires buffer { IsBuffer buffer }
    ensures exact { result ≡ sum_by mode rate (pos cost) buffer }
{
    match mode {
        Mode::Compensated => (cost + price(rate, buffer)) as i128,
        _ => buffer as i128,
    }
}
