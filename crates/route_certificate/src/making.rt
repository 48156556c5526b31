//! The search that makes a certificate.

ghost use Rattle.std.specs.Prelude.{◌≡◌, ◌<◌, ◌≤◌, ◌^◌, ℕ, IfOk, length};
ghost use Rattle.route_certificate.specs.Asks.{IsAsk};
ghost use Rattle.route_certificate.specs.Certified.{AreWritable, IsCertified};
ghost use Rattle.route_certificate.specs.Verdicts.{IsVerdict, total_cost};
ghost use Rattle.route_certificate.specs.declared.making.Certified.TheVariants as certified;
ghost use Rattle.route_certificate.specs.declared.verdict.Verdict.{Verdict};
ghost use Rattle.route_certificate.specs.declared.verdict.Verdict.TheVariants as verdicts;
ghost use Rattle.certificate_text.specs.declared.certificate.Certificate.{Certificate};

use crate::ask::TrackAsk;
use crate::finding::certify_leg;
use certificate_text::{Certificate, LowerBound};
use cost_model::TerrainOf;
use space_search::Outcome;
use std::alloc::{AllocError, Global};

/// What certifying a track comes to.
#[derive(Drop)]
pub enum Certified {
    /// This shows each leg's walk least.
    Shown(Certificate),
    /// This leg has no walk, and each before it has one.
    NoWalk { leg: u32 },
    /// The limit of labels was spent on this leg, and each before it has a walk.
    Spent { leg: u32 },
}

/// A certificate of the legs of a track by a lower bound. Each leg is searched by that bound, and
/// settles at most `limit` labels.
pub fn certify<G: TerrainOf>(
    alloc: Global,
    terrain: G,
    ask: &TrackAsk,
    bound: LowerBound,
    limit: u64,
) -> Result<Certified, AllocError>
    requires asked { IsAsk (G.terrain terrain) ask.now }
    requires some { 1 ≤ length ask.now.nodes.now }
    requires small { limit < 2 ^ 32 }
    ensures exact { IfOk result (IsCertified (G.terrain terrain) ask.now bound limit) }

    // What is shown may be written.
    ensures fits { IfOk result (AreWritable (G.terrain terrain).map) }

    // A check says yes of what is given, and nothing else.
    ensures agrees { IfOk result (λ answer. (certificate : Certificate) (verdict : Verdict) →
        answer ≡ certified.Shown certificate →
        IsVerdict (G.terrain terrain) ask.now certificate verdict →
        verdict ≡ verdicts.Yes (total_cost certificate)) }
{
    let count = ask.nodes.len() - 1;
    let mut legs = Vec::new(alloc);
    'legs: for place in 0..count {
        let found = certify_leg(alloc, terrain, ask, place, bound, limit)?;
        match found {
            Outcome::Found(proof) => legs.push(proof)?,
            Outcome::NoWay => return Ok(Certified::NoWalk { leg: place as u32 }),
            Outcome::Budget => return Ok(Certified::Spent { leg: place as u32 }),
        }
    }
    Ok(Certified::Shown(Certificate { bound, legs }))
}
