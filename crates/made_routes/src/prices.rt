//! What the segments of a grid cost by a profile that is bound to the grid's map.

ghost use Rattle.std.specs.Prelude.{◌≡◌, ◌*◌, ◌<◌, ◌≤◌, IfOk, length};
ghost use Rattle.grid_map.specs.Costs.{AreCheap};
ghost use Rattle.made_routes.specs.Costs.{price_of, segment_prices};
ghost use Rattle.cost_model.specs.Facts.{AreFacts};
ghost use Rattle.way_class.specs.Links.{links_of};

use cost_model::{FactsOf, LinkFacts, distance_part};
use item_list::Items;
use std::alloc::{AllocError, Global};
use way_class::Bound;

/// A costfactor from which a link may not be taken, 10000 in millionths.
const FORBIDDEN: i64 = 10_000_000_000;

/// What the first segments cost in their order, along their first links (0) or back along their
/// second ones (1).
pub(crate) fn segment_prices(
    alloc: Global,
    bound: &Bound,
    which: u32,
    count: u32,
) -> Result<Items<Option<u128>>, AllocError>
    requires which { which ≤ 1 }
    requires count { count ≤ 2000000 }
    requires there { 2 * count ≤ (links_of bound.now).count }
    ensures exact { IfOk result (λ costs. costs ≡ segment_prices (links_of bound.now) which count) }
    ensures fits { IfOk result (λ costs. length costs ≡ count) }
    ensures cheap { IfOk result AreCheap }
{
    let mut costs = Vec::with_capacity(alloc, count as usize)?;
    'segments: for place in 0..count {
        costs.push(link_price(bound, 2 * place + which))?;
    }
    Ok(Items::from_vec(costs))
}

/// What a link costs, if it may be taken.
fn link_price(bound: &Bound, link: u32) -> Option<u128>
    requires there { link < (links_of bound.now).count }
    ensures exact { result ≡ price_of ((links_of bound.now).facts link) }
{
    let facts = bound.facts(link);
    price(&facts)
}

/// What a link of these facts costs, if it may be taken.
#[tactic(auto, unfolding(crate::specs::Costs::price_of))]
fn price(facts: &LinkFacts) -> Option<u128>
    requires facts { AreFacts facts.now }
    ensures exact { result ≡ price_of facts.now }
{
    if facts.costfactor < FORBIDDEN {
        Some(distance_part(facts, 0, 0).unsigned_abs())
    } else {
        None
    }
}
