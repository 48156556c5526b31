//! When a label supersedes an older one of the same link.

ghost use Rattle.std.specs.Prelude.{◌≡◌, ◌<◌, ◌≤◌, ◌^◌, ◌↔◌, pos, ◌*ℤ◌, IsTrue};
ghost use Rattle.elev_buffer.specs.Covers.{AreSumsBelow, IsBelowWherePriced, IsBuffer, IsPair, SupersedesLabel, label, rate_by, terms};

use crate::labels::{Mode, Modes, Pair};
use crate::orders::are_in_order;

/// Whether the label of the buffers `a` and the cost `ca` makes needless all that the label of `b`
/// and `cb` makes needless, of labels that cost no less than `ca`. `kd` and `ku` are the prices of
/// a micrometre of descent and of climb in millionths.
pub fn supersedes(a: &Pair, ca: u128, b: &Pair, cb: u128, kd: i64, ku: i64, modes: &Modes) -> bool
    requires first { IsPair a.now }
    requires second { IsPair b.now }
    requires first_cost { ca < 2 ^ 126 }
    requires second_cost { cb < 2 ^ 126 }
    requires down_rate { IsBuffer kd }
    requires up_rate { IsBuffer ku }
    ensures exact { IsTrue result ↔
        IsBelowWherePriced (terms modes.now kd ku) (label a.now (pos ca)) (label b.now (pos cb)) }
    ensures sound { IsTrue result →
        SupersedesLabel (terms modes.now kd ku) (label a.now (pos ca)) (label b.now (pos cb)) }
    ensures whole { SupersedesLabel (terms modes.now kd ku) (label a.now (pos ca))
        (label b.now (pos cb)) →
        IsTrue result }
    ensures reflexive { a.now ≡ b.now → ca ≤ cb → IsTrue result }
{
    if !are_in_order(a, b, modes) {
        return false;
    }
    are_sums_below(a, ca, b, cb, rate(modes.down, kd), rate(modes.up, ku))
}

/// Whether the first label is no more in each of the three sums whose prices are above 0.
fn are_sums_below(a: &Pair, ca: u128, b: &Pair, cb: u128, kd: i64, ku: i64) -> bool
    requires first { IsPair a.now }
    requires second { IsPair b.now }
    requires first_cost { ca < 2 ^ 126 }
    requires second_cost { cb < 2 ^ 126 }
    requires down_rate { IsBuffer kd }
    requires up_rate { IsBuffer ku }
    ensures exact { IsTrue result ↔
        AreSumsBelow kd ku (label a.now (pos ca)) (label b.now (pos cb)) }
{
    let a_down = price(kd, a.down);
    let b_down = price(kd, b.down);
    let a_up = price(ku, a.up);
    let b_up = price(ku, b.up);
    is_below(kd > 0, ca + a_down, cb + b_down)
        & is_below(ku > 0, ca + a_up, cb + b_up)
        & is_below((kd > 0) & (ku > 0), ca + a_down + a_up, cb + b_down + b_up)
}

/// Whether a sum is no more than another, where this is asked for.
fn is_below(asked: bool, first: u128, second: u128) -> bool
    ensures exact { IsTrue result ↔ (IsTrue asked → first ≤ second) }
{
    !asked || first <= second
}

/// The price of a buffer at a rate for a micrometre.
pub(crate) fn price(rate: i64, buffer: i64) -> u128
    requires rate { IsBuffer rate }
    requires buffer { IsBuffer buffer }
    ensures exact { pos result ≡ rate *ℤ buffer }
    ensures within { result < 2 ^ 100 }
{
    rate as u128 * buffer as u128
}

/// The price of a micrometre of a buffer, and nothing where money can't make up for it.
pub(crate) fn rate(mode: Mode, rate: i64) -> i64
    requires rate { IsBuffer rate }
    ensures exact { result ≡ rate_by mode rate }
    ensures within { IsBuffer result }
{
    match mode {
        Mode::Compensated => rate,
        _ => 0,
    }
}
