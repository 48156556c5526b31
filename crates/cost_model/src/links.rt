//! What it costs to enter a link, and what is carried on from it.

ghost use Rattle.std.specs.Prelude.{◌≡◌, ◌≤◌, ◌≤ℤ◌, ℕ, ◌*ℤ◌, true, None, Some, List, [], unsigned_abs};
ghost use Rattle.geo_int.specs.Arrow.{IsArrow};
ghost use Rattle.cost_model.specs.Facts.{AreFacts, IsCost};
ghost use Rattle.cost_model.specs.Parts.{ArePaid, IsHeld, MovesWithWeights, entry_cost, initial_of, least_distance, parts_after, parts_with, ranked, turn_of, turn_price};
ghost use Rattle.cost_model.specs.Prices.{IsPrices};
ghost use Rattle.cost_model.specs.Walks.{GoesOn, IsCarriedBy, carry_after, empty_pair, pair_of};
ghost use Rattle.cost_model.specs.declared.facts.LinkFacts.{LinkFacts};

use crate::distance::distance_part;
use crate::elevation::{ascent, descent, reduction};
use crate::facts::LinkFacts;
use crate::parts::{Carry, Parts};
use crate::rates::Rates;
use elev_buffer::Pair;
use geo_int::turn_cos;

/// What the first link of a walk costs, and what is carried on from it.
pub fn first(link: u32, facts: &LinkFacts, rates: &Rates) -> (Carry, Parts)
    requires facts { AreFacts facts.now }
    ensures carry { result.0 ≡ carry_after rates.now link facts.now empty_pair }
    ensures parts { result.1 ≡ parts_after rates.now None facts.now empty_pair }

    // What follows for every link.
    ensures held { IsHeld rates.now (pair_of result.0) }
    ensures paid { ArePaid result.1 }
    ensures twice { ArePaid (ranked true result.1) }
    ensures least { least_distance facts.now ≤ℤ result.1.distance }
    ensures moves { MovesWithWeights facts.now }

    // A walk of this link alone has these parts.
    ensures along { (facts_at : ℕ → LinkFacts) → facts_at link ≡ facts.now →
        GoesOn rates.now facts_at [] result.0 result.1 }
{
    // The most is at least 0, so empty buffers are within it.
    prove!(0 <= rates.limits.most);
    entered(link, Pair { down: 0, up: 0 }, 0, 0, facts, rates)
}

/// What it costs to go on by a link after the one whose facts are `last`, which `carry` names, and
/// what is carried on from it.
pub fn enter(
    carry: &Carry,
    last: &LinkFacts,
    link: u32,
    facts: &LinkFacts,
    rates: &Rates,
) -> (Carry, Parts)
    requires last { IsArrow last.now.arrow }
    requires facts { AreFacts facts.now }
    requires held { IsHeld rates.now (pair_of carry.now) }
    ensures carry { result.0 ≡ carry_after rates.now link facts.now (pair_of carry.now) }
    ensures parts { result.1 ≡
        parts_after rates.now (Some last.now) facts.now (pair_of carry.now) }

    // What follows for every link.
    ensures held { IsHeld rates.now (pair_of result.0) }
    ensures paid { ArePaid result.1 }
    ensures twice { ArePaid (ranked true result.1) }
    ensures least { least_distance facts.now ≤ℤ result.1.distance }
    ensures moves { MovesWithWeights facts.now }

    // A walk that carries this goes on by the link with these parts.
    ensures along { (facts_at : ℕ → LinkFacts) (walk : List ℕ) →
        facts_at carry.now.link ≡ last.now → facts_at link ≡ facts.now →
        IsCarriedBy rates.now facts_at walk carry.now →
        GoesOn rates.now facts_at walk result.0 result.1 }
{
    let pair = Pair {
        down: carry.down,
        up: carry.up,
    };
    entered(
        link,
        pair,
        turn(last, facts),
        initial(last, facts),
        facts,
        rates,
    )
}

/// What it costs in all to go on by a link after the one whose facts are `last`, which `carry`
/// names, the distance part once more where the segment was used, and what is carried on from it. A
/// search asks this for each label, so the parts are put together in place.
#[inline(always)]
pub fn enter_priced(
    carry: &Carry,
    last: &LinkFacts,
    link: u32,
    facts: &LinkFacts,
    rates: &Rates,
    used: bool,
) -> (Carry, u128)
    requires last { IsArrow last.now.arrow }
    requires facts { AreFacts facts.now }
    requires held { IsHeld rates.now (pair_of carry.now) }
    ensures carry { result.0 ≡ carry_after rates.now link facts.now (pair_of carry.now) }
    ensures price { result.1 ≡
        entry_cost rates.now used (Some last.now) facts.now (pair_of carry.now) }
{
    let reduced = reduction(facts, rates);
    let down = descent(facts, rates, reduced, carry.down);
    let up = ascent(facts, rates, reduced, carry.up);
    let next = Carry {
        link,
        down: down.e,
        up: up.e,
    };
    let parts = Parts {
        distance: distance_part(facts, down.weight, up.weight),
        turn: turn(last, facts),
        initial: initial(last, facts),
        node: facts.charge as i128,
        elevation: paid(down.paid, rates.down_rate()) + paid(up.paid, rates.up_rate()),
    };
    (next, parts.price(used))
}

/// What a link costs with these turn and initial parts, and what is carried on from it.
fn entered(
    link: u32,
    pair: Pair,
    turn: i128,
    initial: i128,
    facts: &LinkFacts,
    rates: &Rates,
) -> (Carry, Parts)
    requires facts { AreFacts facts.now }
    requires held { IsHeld rates.now pair }
    ensures carry { result.0 ≡ carry_after rates.now link facts.now pair }
    ensures parts { result.1 ≡ parts_with rates.now turn initial facts.now pair }
    ensures prices { IsPrices rates.now }
{
    let reduced = reduction(facts, rates);
    let down = descent(facts, rates, reduced, pair.down);
    let up = ascent(facts, rates, reduced, pair.up);
    let carry = Carry {
        link,
        down: down.e,
        up: up.e,
    };
    let parts = Parts {
        distance: distance_part(facts, down.weight, up.weight),
        turn,
        initial,
        node: facts.charge as i128,
        elevation: paid(down.paid, rates.down_rate()) + paid(up.paid, rates.up_rate()),
    };
    (carry, parts)
}

/// The price of what a step pays.
fn paid(micrometres: i64, rate: i64) -> i128
    requires paid { unsigned_abs micrometres ≤ 1001000000000000 }
    requires rate { unsigned_abs rate ≤ 1000000000 }
    ensures exact { result ≡ micrometres *ℤ rate }
{
    micrometres as i128 * rate as i128
}

/// The turn part: the turn cost of the way that is entered.
fn turn(last: &LinkFacts, facts: &LinkFacts) -> i128
    requires last { IsArrow last.now.arrow }
    requires facts { AreFacts facts.now }
    ensures exact { result ≡ turn_of (Some last.now) facts.now }
{
    if facts.turncost == 0 {
        return 0;
    }
    priced(facts.turncost, turn_cos(&last.arrow, &facts.arrow))
}

/// The price of a turn of this cosine. Products of 128 bits are divided only for turn costs above
/// four million: that is much slower.
fn priced(turncost: i64, cosine: i64) -> i128
    requires turncost { IsCost turncost }
    requires cosine { unsigned_abs cosine ≤ 1000000 }
    ensures exact { result ≡ turn_price turncost cosine }
{
    if turncost <= 4_000_000_000_000 {
        (turncost as u64 * (1_000_000 - cosine) as u64 / 1_000_000) as i128
    } else {
        priced_wide(turncost, cosine)
    }
}

/// The price of a turn of this cosine, by products of 128 bits. It is asked for seldom, so it stands
/// apart.
#[cold]
#[inline(never)]
fn priced_wide(turncost: i64, cosine: i64) -> i128
    requires turncost { IsCost turncost }
    requires cosine { unsigned_abs cosine ≤ 1000000 }
    ensures exact { result ≡ turn_price turncost cosine }
{
    (turncost as i128 * (1_000_000 - cosine) as i128).div_euclid(1_000_000)
}

/// The initial part: that of the way that is entered, where the classifier changes.
fn initial(last: &LinkFacts, facts: &LinkFacts) -> i128
    ensures exact { result ≡ initial_of (Some last.now) facts.now }
{
    if last.classifier == facts.classifier {
        0
    } else {
        facts.initialcost as i128
    }
}
