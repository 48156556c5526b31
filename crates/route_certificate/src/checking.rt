//! Whether a certificate shows the walks of a track least.

ghost use Rattle.std.specs.Prelude.{◌≡◌, ◌↔◌, ℕ, ◌+◌, IfOk, IsTrue};
ghost use Rattle.route_certificate.specs.Asks.{IsAsk};
ghost use Rattle.route_certificate.specs.Verdicts.{AreLeastLegs, AreShort, IsVerdict};
ghost use Rattle.route_certificate.specs.declared.verdict.Verdict.TheVariants as verdicts;

use crate::ask::TrackAsk;
use crate::leg::leg_fault;
use crate::verdict::{Verdict, Why};
use certificate_text::Certificate;
use cost_model::TerrainOf;
use item_list::narrow;
use std::alloc::{AllocError, Global};

/// Whether a certificate shows the walks of a track least, with the sum of their costs; or the
/// first condition that fails, leg after leg, where labels rank by the lower bound of the
/// certificate. No labels are searched.
pub fn verify<G: TerrainOf>(
    alloc: Global,
    terrain: G,
    ask: &TrackAsk,
    certificate: &Certificate,
) -> Result<Verdict, AllocError>
    requires asked { IsAsk (G.terrain terrain) ask.now }
    requires short { AreShort certificate.now }
    ensures exact { IfOk result (IsVerdict (G.terrain terrain) ask.now certificate.now) }

    // With `Yes` no walk of a leg costs less than the leg's.
    ensures least { IfOk result (λ verdict. (cost : ℕ) → verdict ≡ verdicts.Yes cost →
        AreLeastLegs (G.terrain terrain) ask.now certificate.now) }
{
    let legs = certificate.legs.as_slice();
    let count = narrow(legs.len())?;
    if !is_one_fewer(legs.len(), ask.nodes.len()) {
        return Ok(Verdict::No {
            leg: count,
            why: Why::Legs,
        });
    }
    let mut cost = 0;
    'legs: for place in 0..legs.len() {
        let proof = &legs[place];
        let fault = leg_fault(alloc, terrain, ask, place, certificate.bound, proof)?;
        match fault {
            Some(why) => {
                let leg = place as u32;
                return Ok(Verdict::No { leg, why });
            }
            None => cost += proof.cost,
        }
    }
    Ok(Verdict::Yes { cost })
}

/// Whether a count is one below another.
fn is_one_fewer(count: usize, other: usize) -> bool
    ensures exact { IsTrue result ↔ (count + 1 ≡ other) }
{
    count < other && other - count == 1
}
