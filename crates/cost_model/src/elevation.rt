//! The steps of both buffers over a link.

ghost use Rattle.std.specs.Prelude.{◌≡◌, ◌≤◌, ◌≤ℤ◌, pos};
ghost use Rattle.elev_buffer.specs.Step.{step_of};
ghost use Rattle.cost_model.specs.Facts.{AreFacts};
ghost use Rattle.cost_model.specs.Parts.{climb_of, per_metre};
ghost use Rattle.cost_model.specs.Prices.{IsPrices, IsSlope};

use crate::distance::along;
use crate::facts::LinkFacts;
use crate::rates::Rates;
use elev_buffer::{Stepped, step};

/// What a slope in micrometres for a metre comes to along a link.
fn slope(facts: &LinkFacts, rate: i64) -> i64
    requires facts { AreFacts facts.now }
    requires rate { IsSlope rate }
    ensures exact { result ≡ per_metre facts.now.arrow.len rate }
    ensures low { pos 0 ≤ℤ result }
    ensures high { result ≤ℤ pos 1000000000000000000 }
{
    along(facts.arrow.len, rate) as i64
}

/// By how much a buffer is reduced at most over a link.
pub(crate) fn reduction(facts: &LinkFacts, rates: &Rates) -> i64
    requires facts { AreFacts facts.now }
    ensures exact { result ≡ (climb_of rates.now facts.now).reduction }
    ensures low { pos 0 ≤ℤ result }
    ensures high { result ≤ℤ pos 1000000000000000000 }
{
    slope(facts, rates.reduction)
}

/// What the buffer of descending leaves, pays and weighs over a link that reduces it so.
pub(crate) fn descent(facts: &LinkFacts, rates: &Rates, reduction: i64, down: i64) -> Stepped
    requires facts { AreFacts facts.now }
    requires reduced { reduction ≡ (climb_of rates.now facts.now).reduction }
    requires reduced_low { pos 0 ≤ℤ reduction }
    requires reduced_high { reduction ≤ℤ pos 1000000000000000000 }
    requires low { pos 0 ≤ℤ down }
    requires high { down ≤ℤ rates.now.limits.most }
    ensures exact { let climb = climb_of rates.now facts.now in
        result ≡ step_of rates.now.limits climb.down_added climb.reduction down }
    ensures prices { IsPrices rates.now }
{
    let added = -facts.rise - slope(facts, rates.down_cutoff);
    step(down, added, reduction, &rates.limits)
}

/// What the buffer of climbing leaves, pays and weighs over a link that reduces it so.
pub(crate) fn ascent(facts: &LinkFacts, rates: &Rates, reduction: i64, up: i64) -> Stepped
    requires facts { AreFacts facts.now }
    requires reduced { reduction ≡ (climb_of rates.now facts.now).reduction }
    requires reduced_low { pos 0 ≤ℤ reduction }
    requires reduced_high { reduction ≤ℤ pos 1000000000000000000 }
    requires low { pos 0 ≤ℤ up }
    requires high { up ≤ℤ rates.now.limits.most }
    ensures exact { let climb = climb_of rates.now facts.now in
        result ≡ step_of rates.now.limits climb.up_added climb.reduction up }
    ensures prices { IsPrices rates.now }
{
    let added = facts.rise - slope(facts, rates.up_cutoff);
    step(up, added, reduction, &rates.limits)
}
