//! What it costs at least to enter a link after another.

ghost use Rattle.std.specs.Prelude.{◌≡◌, ◌≤ℤ◌, pos, negsuc, Some};
ghost use Rattle.geo_int.specs.Arrow.{IsArrow};
ghost use Rattle.cost_model.specs.Facts.{AreFacts, IsCost};
ghost use Rattle.cost_model.specs.Parts.{initial_of, turn_of, turn_price};
ghost use Rattle.ride_bounds.specs.Entries.{least_entry as entry_of, weight_of};

use cost_model::{LinkFacts, least_price};
use geo_int::turn_cos;

/// What it costs at least to enter a link after one whose facts are `last`, in millionths, whatever
/// walk comes there: the low form of its price, the turn part and the initial part.
pub fn least_entry(last: &LinkFacts, facts: &LinkFacts) -> u128
    requires last { AreFacts last.now }
    requires facts { AreFacts facts.now }
    ensures exact { result ≡ entry_of last.now facts.now }
{
    least_price(facts, false) + (turn(last, facts) + initial(last, facts)) as u128
}

/// The turn part.
fn turn(last: &LinkFacts, facts: &LinkFacts) -> i128
    requires last { IsArrow last.now.arrow }
    requires facts { AreFacts facts.now }
    ensures exact { result ≡ turn_of (Some last.now) facts.now }
    ensures low { pos 0 ≤ℤ result }
    ensures high { result ≤ℤ pos 2000000000000000 }
{
    priced(facts.turncost, turn_cos(&last.arrow, &facts.arrow))
}

/// The price of a turn of this cosine.
fn priced(turncost: i64, cosine: i64) -> i128
    requires turncost { IsCost turncost }
    requires low { negsuc 999999 ≤ℤ cosine }
    requires high { cosine ≤ℤ pos 1000000 }
    ensures exact { result ≡ turn_price turncost cosine }
{
    (turncost as i128 * (1_000_000 - cosine) as i128).div_euclid(1_000_000)
}

/// The initial part.
fn initial(last: &LinkFacts, facts: &LinkFacts) -> i128
    requires facts { AreFacts facts.now }
    ensures exact { result ≡ initial_of (Some last.now) facts.now }
    ensures low { pos 0 ≤ℤ result }
    ensures high { result ≤ℤ pos 1000000000000000 }
{
    if last.classifier == facts.classifier {
        0
    } else {
        facts.initialcost as i128
    }
}

/// A price as a weight.
#[tactic(auto, unfolding(crate::specs::Entries::weight_of))]
pub(crate) fn weight(price: u128) -> u32
    ensures value { result ≡ weight_of price }
{
    (price / 1000).min(0xffff_ffff) as u32
}
