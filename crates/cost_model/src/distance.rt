//! Lengths at a rate for a metre, and the distance part of a link.

ghost use Rattle.std.specs.Prelude.{◌≡◌, ◌≤◌, ◌≤ℤ◌, ◌-ℤ◌, ◌*ℤ◌, pos, unsigned_abs};
ghost use Rattle.cost_model.specs.Facts.{AreFacts, IsCost};
ghost use Rattle.cost_model.specs.Parts.{IsWeight, MovesWithWeights, distance_of, factor_of, least_distance, moved_of, per_metre};

use crate::facts::LinkFacts;

/// What a rate for a metre comes to along so many millimetres. Products of 128 bits are divided
/// only for rates above 90,000: that is much slower.
pub(crate) fn along(length: u64, rate: i64) -> i128
    requires length { length ≤ 100000000 }
    requires low { pos 0 ≤ℤ rate }
    requires high { rate ≤ℤ pos 3000000000000000 }
    ensures exact { result ≡ per_metre length rate }
{
    if rate <= 90_000_000_000 {
        (length * rate as u64 / 1000) as i128
    } else {
        along_wide(length, rate)
    }
}

/// What a rate for a metre comes to along so many millimetres, by products of 128 bits. It is asked
/// for seldom, so it stands apart.
#[cold]
#[inline(never)]
fn along_wide(length: u64, rate: i64) -> i128
    requires length { length ≤ 100000000 }
    requires low { pos 0 ≤ℤ rate }
    requires high { rate ≤ℤ pos 3000000000000000 }
    ensures exact { result ≡ per_metre length rate }
{
    length as i128 * rate as i128 / 1000
}

/// The factor of the distance by the weights of both buffers.
fn factor(facts: &LinkFacts, down: i64, up: i64) -> i64
    requires facts { AreFacts facts.now }
    requires down { IsWeight down }
    requires up { IsWeight up }
    ensures exact { result ≡ factor_of facts.now down up }
    ensures low { pos 0 ≤ℤ result }
    ensures high { result ≤ℤ pos 3000000000000000 }
{
    if facts.downfactor == facts.costfactor && facts.upfactor == facts.costfactor {
        return facts.costfactor;
    }
    moved(facts, down, up).max(0)
}

/// `costfactor`, moved toward the factors for descending and climbing.
fn moved(facts: &LinkFacts, down: i64, up: i64) -> i64
    requires facts { AreFacts facts.now }
    requires down { IsWeight down }
    requires up { IsWeight up }
    ensures exact { result ≡ moved_of facts.now down up }
    ensures within { unsigned_abs result ≤ 3000000000000000 }
{
    let cost = facts.costfactor as i128 * 1_000_000;
    let descending = pull(facts.downfactor, facts.costfactor, down);
    let climbing = pull(facts.upfactor, facts.costfactor, up);
    (cost + descending + climbing).div_euclid(1_000_000) as i64
}

/// How far a weight moves `costfactor` toward another factor, in millionths.
fn pull(factor: i64, costfactor: i64, weight: i64) -> i128
    requires factor { IsCost factor }
    requires costfactor { IsCost costfactor }
    requires weight { IsWeight weight }
    ensures exact { result ≡ (factor -ℤ costfactor) *ℤ weight }
    ensures within { unsigned_abs result ≤ 1000000000000000000000 }
{
    (factor - costfactor) as i128 * weight as i128
}

/// The distance part by the weights of both buffers in millionths.
pub fn distance_part(facts: &LinkFacts, down: i64, up: i64) -> i128
    requires facts { AreFacts facts.now }
    requires down { IsWeight down }
    requires up { IsWeight up }
    ensures exact { result ≡ distance_of facts.now down up }
    ensures least { least_distance facts.now ≤ℤ result }
    ensures moves { MovesWithWeights facts.now }
{
    along(facts.arrow.len, factor(facts, down, up))
}
