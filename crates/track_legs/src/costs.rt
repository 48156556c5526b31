//! What a walk costs.

ghost use Rattle.std.specs.Prelude.{◌≡◌, ◌<◌, ◌≤◌, ◌*◌, ◌^◌, IfSome, IsSome, SomeIff, List, ℕ, length};
ghost use Rattle.cost_model.specs.Parts.{ArePaid, cost_of};
ghost use Rattle.cost_model.specs.Walks.{GoesOn, walk_cost};
ghost use Rattle.track_legs.specs.Costs.{IsCarriedSoFar, IsKept};
ghost use Rattle.track_legs.specs.Rows.{AreBelow};

use cost_model::{Carry, FactsOf, Parts, Rates, enter, first};

/// What these links cost as a walk, in millionths, by the facts of links and the rates of a
/// profile; none where that is 2^128 or more. Whether they are a walk isn't asked. It takes no
/// memory.
pub fn cost_along<F: FactsOf>(facts: &F, rates: &Rates, walk: &[u32]) -> Option<u128>
    requires in_range { AreBelow (F.links facts.now).count walk.now }
    ensures exact { let cost = walk_cost rates.now (F.links facts.now).facts walk.now in
        SomeIff result (cost < 2 ^ 128) cost }

    // A link costs less than 2^81.
    ensures found { length walk.now ≤ 2 ^ 46 → IsSome result }
    ensures below { IfSome result (λ cost. cost ≤ length walk.now * 2 ^ 81) }
{
    let mut cost = 0u128;
    let mut carry = None;
    'links: for place in 0..walk.len() {
        let (next, parts) = go_on(facts, rates, carry, walk[place]);
        cost = cost.checked_add(price(&parts))?;
        carry = Some(next);
    }
    Some(cost)
}

/// What a walk costs by one link more, after what it carries so far, and what it carries then.
pub(crate) fn go_on<F: FactsOf>(
    facts: &F,
    rates: &Rates,
    carry: Option<Carry>,
    link: u32,
) -> (Carry, Parts)
    requires in_range { link < (F.links facts.now).count }
    requires kept { IfSome carry (λ c. IsKept rates.now (F.links facts.now).count c) }
    ensures link { result.0.link ≡ link }
    ensures kept { IsKept rates.now (F.links facts.now).count result.0 }
    ensures paid { ArePaid result.1 }
    ensures along { (walk : List ℕ) →
        IsCarriedSoFar rates.now (F.links facts.now).facts walk carry →
        GoesOn rates.now (F.links facts.now).facts walk result.0 result.1 }
{
    let taken = facts.facts(link);
    match carry {
        None => first(link, &taken, rates),
        Some(last) => enter(&last, &facts.facts(last.link), link, &taken, rates),
    }
}

/// What parts come to.
fn price(parts: &Parts) -> u128
    requires paid { ArePaid parts.now }
    ensures exact { result ≡ cost_of parts.now }
    ensures below { result < 2 ^ 81 }
{
    parts.sum() as u128
}
