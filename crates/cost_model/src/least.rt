//! The low form of what it costs to enter a link.

ghost use Rattle.std.specs.Prelude.{◌≡◌, ◌≤ℤ◌, ◌<◌, ◌^◌, pos};
ghost use Rattle.cost_model.specs.Facts.{AreFacts};
ghost use Rattle.cost_model.specs.OpenLinks.{low_price_of};
ghost use Rattle.cost_model.specs.Parts.{counted, least_distance, least_factor, least_price as price_of};

use crate::distance::along;
use crate::facts::LinkFacts;
use crate::open_links::is_passable;

/// What it costs to enter a link at least, in millionths, whatever walk enters it: the low form of
/// its distance part, counted twice where its segment was `used`, and the charge of its end.
pub fn least_price(facts: &LinkFacts, used: bool) -> u128
    requires facts { AreFacts facts.now }
    ensures exact { result ≡ price_of used facts.now }
    ensures below { result < 2 ^ 68 }
{
    (twice(used, distance(facts)) + facts.charge as i128) as u128
}

/// What it costs to enter a link at least whose segment wasn't used, as `least_price` says; `None`
/// where its facts don't let a rider take it.
pub fn low_price(facts: &LinkFacts) -> Option<u128>
    requires facts { AreFacts facts.now }
    ensures exact { result ≡ low_price_of facts.now }
{
    if is_passable(facts) {
        Some(least_price(facts, false))
    } else {
        None
    }
}

/// A distance part, counted twice where this is asked for.
fn twice(used: bool, distance: i128) -> i128
    requires low { pos 0 ≤ℤ distance }
    requires high { distance ≤ℤ pos 100000000000000000000 }
    ensures exact { result ≡ counted used distance }
    ensures low { pos 0 ≤ℤ result }
    ensures high { result ≤ℤ pos 200000000000000000000 }
{
    if used { distance + distance } else { distance }
}

/// The low form of the distance part.
fn distance(facts: &LinkFacts) -> i128
    requires facts { AreFacts facts.now }
    ensures exact { result ≡ least_distance facts.now }
    ensures low { pos 0 ≤ℤ result }
    ensures high { result ≤ℤ pos 100000000000000000000 }
{
    along(facts.arrow.len, factor(facts))
}

/// The low form of the factor of the distance.
fn factor(facts: &LinkFacts) -> i64
    requires facts { AreFacts facts.now }
    ensures exact { result ≡ least_factor facts.now }
    ensures low { pos 0 ≤ℤ result }
    ensures high { result ≤ℤ pos 1000000000000000 }
{
    let descending = (facts.downfactor - facts.costfactor).min(0);
    let climbing = (facts.upfactor - facts.costfactor).min(0);
    (facts.costfactor + descending + climbing).max(0)
}
