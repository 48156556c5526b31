//! The space of a leg, by the lower bound of a certificate.

ghost use Rattle.std.specs.Prelude.{◌≡◌, ◌↔◌, ◌<◌, ◌≤◌, ◌+◌, ℕ, IfOk, IsTrue, None, Some, [], false, get_or, length};
ghost use Rattle.bike_space.specs.Kept.{Wakes, task_of};
ghost use Rattle.bike_space.specs.Openings.{IsOpening, left_of, leg_of, near_of, used_of};
ghost use Rattle.certificate_text.specs.declared.certificate.LowerBound.TheVariants.{Least, Zero};
ghost use Rattle.least_sums.specs.Findings.{most_found};
ghost use Rattle.route_certificate.specs.Asks.{IsAsk, leg_in};
ghost use Rattle.route_certificate.specs.Legs.{AreRests, AreRestsBelow};

use crate::ask::TrackAsk;
use bike_space::{BikeSpace, LegAsk, Opening};
use certificate_text::LowerBound;
use cost_model::TerrainOf;
use least_sums::Near;
use std::alloc::{AllocError, Global};

/// The space of the leg at a place for the check of a walk at a cost, in which no segment is used.
/// Where labels rank by their cost it knows nothing of what still has to be paid; else that is found
/// as far as the walk's cost alone, since no label is asked for that ranks as high.
pub(crate) fn leg_space_below<G: TerrainOf>(
    alloc: Global,
    terrain: G,
    ask: &TrackAsk,
    place: usize,
    bound: LowerBound,
    cost: u128,
) -> Result<BikeSpace<G>, AllocError>
    requires asked { IsAsk (G.terrain terrain) ask.now }
    requires within { place + 1 < length ask.now.nodes.now }
    ensures terrain { IfOk result (λ space. space.terrain ≡ terrain) }
    ensures leg { IfOk result (λ space. (task_of (G.terrain terrain) space.kept).leg ≡
        leg_in (G.terrain terrain) ask.now place) }
    ensures unused { IfOk result (λ space. (link : ℕ) →
        (task_of (G.terrain terrain) space.kept).used link ≡ false) }
    ensures rests { IfOk result (λ space. AreRestsBelow bound
        (task_of (G.terrain terrain) space.kept).leg cost
        (task_of (G.terrain terrain) space.kept).low) }
{
    match bound {
        LowerBound::Zero => costs_alone(alloc, terrain, ask, place),
        LowerBound::Least => with_rests_below(alloc, terrain, ask, place, cost),
    }
}

/// The space of a leg in which a rank is a cost.
pub(crate) fn costs_alone<G: TerrainOf>(
    alloc: Global,
    terrain: G,
    ask: &TrackAsk,
    place: usize,
) -> Result<BikeSpace<G>, AllocError>
    requires asked { IsAsk (G.terrain terrain) ask.now }
    requires within { place + 1 < length ask.now.nodes.now }
    ensures terrain { IfOk result (λ space. space.terrain ≡ terrain) }
    ensures leg { IfOk result (λ space. (task_of (G.terrain terrain) space.kept).leg ≡
        leg_in (G.terrain terrain) ask.now place) }
    ensures unused { IfOk result (λ space. (link : ℕ) →
        (task_of (G.terrain terrain) space.kept).used link ≡ false) }
    ensures rests { IfOk result (λ space. AreRests Zero
        (task_of (G.terrain terrain) space.kept).leg
        (task_of (G.terrain terrain) space.kept).low) }
    ensures wakes { IfOk result (λ space. Wakes (G.terrain terrain) space.kept) }
{
    let (start, target) = (ask.nodes[place], ask.nodes[place + 1]);
    BikeSpace::plain(alloc, terrain, ask.cut, ask.turns, start, target)
}

/// The space of a leg that is opened, in which what still has to be paid is found for all nodes.
pub(crate) fn rests_opening<G: TerrainOf>(
    alloc: Global,
    terrain: &G,
    ask: &TrackAsk,
    place: usize,
) -> Result<Opening, AllocError>
    requires asked { IsAsk (G.terrain terrain.now) ask.now }
    requires within { place + 1 < length ask.now.nodes.now }
    ensures opens { IfOk result (IsOpening (G.terrain terrain.now)) }
    ensures leg { IfOk result (λ opening. leg_of (G.terrain terrain.now) opening ≡
        leg_in (G.terrain terrain.now) ask.now place) }
    ensures unused { IfOk result (λ opening. (link : ℕ) → used_of opening link ≡ false) }
    ensures near { IfOk result (λ opening. near_of opening ≡ None) }
    ensures left { IfOk result (λ opening.
        left_of opening ≡ most_found (length (G.terrain terrain.now).map.links)) }
{
    Opening::new(alloc, terrain, &leg_ask(ask, place), None)
}

/// The space of a leg in which what still has to be paid is found as far as a cost.
fn with_rests_below<G: TerrainOf>(
    alloc: Global,
    terrain: G,
    ask: &TrackAsk,
    place: usize,
    cost: u128,
) -> Result<BikeSpace<G>, AllocError>
    requires asked { IsAsk (G.terrain terrain) ask.now }
    requires within { place + 1 < length ask.now.nodes.now }
    ensures terrain { IfOk result (λ space. space.terrain ≡ terrain) }
    ensures leg { IfOk result (λ space. (task_of (G.terrain terrain) space.kept).leg ≡
        leg_in (G.terrain terrain) ask.now place) }
    ensures unused { IfOk result (λ space. (link : ℕ) →
        (task_of (G.terrain terrain) space.kept).used link ≡ false) }
    ensures rests { IfOk result (λ space. AreRestsBelow Least
        (task_of (G.terrain terrain) space.kept).leg cost
        (task_of (G.terrain terrain) space.kept).low) }
{
    let near = Some(Near::Sum(cost));
    let space = BikeSpace::new(alloc, terrain, &leg_ask(ask, place), near)?;
    if is_far(space.radius(), cost) {
        Ok(space)
    } else {
        space.widened(alloc)
    }
}

/// Whether a radius is no less than a cost, or there is none.
fn is_far(radius: Option<u128>, cost: u128) -> bool
    ensures exact { IsTrue result ↔ ((most : ℕ) → radius ≡ Some most → cost ≤ most) }
{
    match radius {
        Some(most) => cost <= most,
        None => true,
    }
}

/// The leg at a place, in which no segment is used.
fn leg_ask<'a>(ask: &'a TrackAsk<'a>, place: usize) -> LegAsk<'a>
    requires within { place + 1 < length ask.now.nodes.now }
    ensures value { result ≡ record {
      cut = ask.now.cut;
      used = result.used;
      start = get_or ask.now.nodes.now place 0;
      target = get_or ask.now.nodes.now (place + 1) 0;
      turns = ask.now.turns;
    } }
    ensures unused { result.used.now ≡ [] }
{
    let (start, target) = (ask.nodes[place], ask.nodes[place + 1]);
    LegAsk {
        cut: ask.cut,
        used: &[],
        start,
        target,
        turns: ask.turns,
    }
}
