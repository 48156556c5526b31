//! When a label makes another of the same link needless.

ghost use Rattle.std.specs.Prelude.{◌≡◌, ◌<◌, ◌≤◌, ◌^◌, ◌↔◌, ℕ, ℤ, pos, ◌+ℤ◌, IsTrue};
ghost use Rattle.elev_buffer.specs.Covers.{CoversAll, CoversLabel, IsBelowInSums, IsBuffer, IsInOrder, IsKept, IsPair, Label, covers_label, label, price, terms};
ghost use Rattle.elev_buffer.specs.Slots.{slot_of};

use crate::labels::{Mode, Modes, Pair};
use crate::slots::asks_equal;

/// Whether the label of the buffers `a` and the cost `ca` makes that of `b` and `cb` needless,
/// where `kd` and `ku` are the prices of a micrometre of descent and of climb in millionths.
pub fn covers(a: &Pair, ca: u128, b: &Pair, cb: u128, kd: i64, ku: i64, modes: &Modes) -> bool
    requires first { IsPair a.now }
    requires second { IsPair b.now }
    requires first_cost { ca < 2 ^ 126 }
    requires second_cost { cb < 2 ^ 126 }
    requires down_rate { IsBuffer kd }
    requires up_rate { IsBuffer ku }
    ensures value { result ≡
        covers_label (terms modes.now kd ku) (label a.now (pos ca)) (label b.now (pos cb)) }
    ensures exact { IsTrue result ↔
        CoversLabel (terms modes.now kd ku) (label a.now (pos ca)) (label b.now (pos cb)) }

    // What covers costs no more. Covering is an order, and lasts from link to link.
    ensures cheaper { IsTrue result → ca ≤ cb }
    ensures reflexive { a.now ≡ b.now → ca ≤ cb → IsTrue result }
    ensures transitive { (third : Label) → IsTrue result →
        CoversLabel (terms modes.now kd ku) (label b.now (pos cb)) third →
        CoversLabel (terms modes.now kd ku) (label a.now (pos ca)) third }
    ensures kept { IsTrue result →
        IsKept (terms modes.now kd ku) (label a.now (pos ca)) (label b.now (pos cb)) }

    // What covers lies in the slot of what it covers, whatever their link and however many slots
    // there are.
    ensures one_slot { (slots link : ℕ) → IsTrue result →
        slot_of slots modes.now link a.now ≡ slot_of slots modes.now link b.now }

    // Where both buffers are compensated and the second label costs no less, it is the order in
    // three sums.
    ensures sums { modes.now.down ≡ Mode.Compensated → modes.now.up ≡ Mode.Compensated → ca ≤ cb →
        (IsTrue result ↔
        IsBelowInSums (terms modes.now kd ku) (label a.now (pos ca)) (label b.now (pos cb))) }
{
    is_covered(a, ca, b, cb, kd, ku, modes)
}

/// Whether the label of the buffers `a` and the cost `ca` makes each needless that costs `cost` or
/// more, whatever its buffers: where none must be equal, it does so where it makes that of empty
/// buffers and this cost needless. A search asks this for each step, so it is put in place there.
#[inline(always)]
pub fn covers_all(a: &Pair, ca: u128, cost: u128, kd: i64, ku: i64, modes: &Modes) -> bool
    requires first { IsPair a.now }
    requires first_cost { ca < 2 ^ 126 }
    requires down_rate { IsBuffer kd }
    requires up_rate { IsBuffer ku }
    ensures exact { IsTrue result ↔
        CoversAll (terms modes.now kd ku) (label a.now (pos ca)) (pos cost) }
{
    if asks_equal(modes) {
        return false;
    }
    is_covered(a, ca, &Pair { down: 0, up: 0 }, cost, kd, ku, modes)
}

/// The test of the definition: first the order, then the cost.
fn is_covered(a: &Pair, ca: u128, b: &Pair, cb: u128, kd: i64, ku: i64, modes: &Modes) -> bool
    requires first { IsPair a.now }
    requires second { IsPair b.now }
    requires first_cost { ca < 2 ^ 126 }
    requires down_rate { IsBuffer kd }
    requires up_rate { IsBuffer ku }
    ensures exact { IsTrue result ↔
        CoversLabel (terms modes.now kd ku) (label a.now (pos ca)) (label b.now (pos cb)) }
{
    if !are_in_order(a, b, modes) {
        return false;
    }
    ca + prices(a, b, kd, ku, modes) <= cb
}

/// Whether both buffers have the order that their modes ask for.
pub(crate) fn are_in_order(a: &Pair, b: &Pair, modes: &Modes) -> bool
    ensures exact { IsTrue result ↔
        (IsInOrder modes.now.down a.now.down b.now.down
        × IsInOrder modes.now.up a.now.up b.now.up) }
{
    is_in_order(modes.down, a.down, b.down) && is_in_order(modes.up, a.up, b.up)
}

/// What it costs to make up for what the first pair has more.
fn prices(a: &Pair, b: &Pair, kd: i64, ku: i64, modes: &Modes) -> u128
    requires first { IsPair a.now }
    requires second { IsPair b.now }
    requires down_rate { IsBuffer kd }
    requires up_rate { IsBuffer ku }
    ensures exact { pos result ≡
        price modes.now.down kd a.now.down b.now.down +ℤ price modes.now.up ku a.now.up b.now.up }
    ensures within { result < 2 ^ 101 }
{
    price_of(modes.down, kd, a.down, b.down) + price_of(modes.up, ku, a.up, b.up)
}

/// Whether two buffers have the order that their mode asks for.
fn is_in_order(mode: Mode, first: i64, second: i64) -> bool
    ensures exact { IsTrue result ↔ IsInOrder mode first second }
{
    match mode {
        Mode::Compensated => true,
        Mode::Ordered => first <= second,
        Mode::Equal => first == second,
    }
}

/// What it costs to make up for what the first buffer has more.
fn price_of(mode: Mode, rate: i64, first: i64, second: i64) -> u128
    requires rate { IsBuffer rate }
    requires first { IsBuffer first }
    requires second { IsBuffer second }
    ensures exact { pos result ≡ price mode rate first second }
    ensures within { result < 2 ^ 100 }
{
    match mode {
        Mode::Compensated if first > second => rate as u128 * (first - second) as u128,
        _ => 0,
    }
}
