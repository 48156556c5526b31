//! Cases on certificates.

mod written;

ghost use Rattle.std.specs.List.{slice_get};
ghost use Rattle.std.specs.Prelude.{◌≡◌, ◌≤◌, ◌^◌, ℕ, IsTrue, Some, length};
ghost use Rattle.certificate_text.specs.declared.certificate.Proof.{Proof};
ghost use Rattle.map_cases.specs.Ends.{AreNodes};
ghost use Rattle.route_certificate.specs.Asks.{IsAsk};

use crate::answers::OUTSIDE;
use crate::certificates::written::{certificate_of, tell_certificate};
use crate::space::ways::given_by_ways;
use crate::space::{marks, rates_of_case};
use crate::track::legs::numbers;
use case_inputs::{Case, place_of};
use certificate_text::{Certificate, LowerBound, Proof};
use cost_model::{FactsOf, PricedMap, TerrainOf, modes};
use overpass_graph::Map;
use route_certificate::{Certified, TrackAsk, Verdict, Why, certify, verify};
use std::alloc::{AllocError, Global};

/// The calls: with labels that rank by their cost, and with labels that rank with what is still to
/// pay.
const CALLS: [&str; 4] = ["certify", "check", "certify_bound", "check_bound"];

/// What certifying a track comes to, and what a check says of it; or what a check says of a
/// certificate that is given.
pub(crate) fn answer(alloc: Global, case: &Case, map: &Map) -> Result<String, AllocError> {
    let Some(rates) = rates_of_case(case) else {
        return String::from_str(alloc, OUTSIDE);
    };
    let given = given_by_ways(alloc, case, map)?;
    let nodes = numbers(alloc, case.text(12))?;
    if given.count() != map.links() || !are_nodes(nodes.as_slice(), map) {
        return String::from_str(alloc, OUTSIDE);
    }
    let cut = marks(alloc, case.word(15))?;
    let ask = TrackAsk {
        nodes: nodes.as_slice(),
        cut: cut.as_slice(),
        turns: case.count(4) == 1,
    };
    let terrain = PricedMap::new(map, &given, &rates, modes(&given));
    match place_of(&CALLS, case.word(0)) {
        0 => certified(alloc, terrain, &ask, LowerBound::Zero, case.count(14)),
        1 => checked(alloc, terrain, &ask, LowerBound::Zero, case.text(16)),
        2 => certified(alloc, terrain, &ask, LowerBound::Least, case.count(14)),
        _ => checked(alloc, terrain, &ask, LowerBound::Least, case.text(16)),
    }
}

/// Whether there are 1 to 100 numbers, each of which is one of a node.
fn are_nodes(nodes: &[u32], map: &Map) -> bool
    ensures nodes { IsTrue result → AreNodes (length map.now.nodes) nodes.now }
{
    if nodes.is_empty() || nodes.len() > 100 {
        return false;
    }
    'nodes: for place in 0..nodes.len() {
        if nodes[place] >= map.nodes() {
            return false;
        }
    }
    true
}

/// What certifying comes to, and what a check says of it.
fn certified<G: TerrainOf>(
    alloc: Global,
    terrain: G,
    ask: &TrackAsk,
    bound: LowerBound,
    limit: u64,
) -> Result<String, AllocError>
    requires asked { IsAsk (G.terrain terrain) ask.now }
    requires some { 1 ≤ length ask.now.nodes.now }
{
    let mut line = String::new(alloc);
    if limit >= 1 << 32 {
        write!(line, "{OUTSIDE}")?;
        return Ok(line);
    }
    match certify(alloc, terrain, ask, bound, limit)? {
        Certified::NoWalk { leg } => write!(line, "no walk {leg}")?,
        Certified::Spent { leg } => write!(line, "spent {leg}")?,
        Certified::Shown(certificate) => {
            tell_certificate(&mut line, &certificate)?;
            tell_check(&mut line, alloc, terrain, ask, &certificate)?;
        }
    }
    Ok(line)
}

/// What a check says of the certificate of a word, by a lower bound.
fn checked<G: TerrainOf>(
    alloc: Global,
    terrain: G,
    ask: &TrackAsk,
    bound: LowerBound,
    word: &str,
) -> Result<String, AllocError>
    requires asked { IsAsk (G.terrain terrain) ask.now }
{
    let certificate = certificate_of(alloc, bound, word)?;
    let mut line = String::new(alloc);
    tell_check(&mut line, alloc, terrain, ask, &certificate)?;
    Ok(line)
}

/// Writes what a check says of a certificate.
fn tell_check<G: TerrainOf>(
    line: &mut String,
    alloc: Global,
    terrain: G,
    ask: &TrackAsk,
    certificate: &Certificate,
) -> Result<(), AllocError>
    requires asked { IsAsk (G.terrain terrain) ask.now }
{
    if !are_short(certificate.legs.as_slice()) {
        write!(line, "{OUTSIDE}")?;
        return Ok(());
    }
    let verdict = verify(alloc, terrain, ask, certificate)?;
    tell_verdict(line, verdict)
}

/// Whether no walk has more than 2^32 links.
fn are_short(legs: &[Proof]) -> bool
    ensures short { IsTrue result → (number : ℕ) (proof : Proof) →
        slice_get legs.now number ≡ Some proof → length proof.walk.items ≤ 2 ^ 32 }
{
    'legs: for place in 0..legs.len() {
        if legs[place].walk.len() > 1 << 32 {
            return false;
        }
    }
    true
}

/// Writes a verdict.
fn tell_verdict(line: &mut String, verdict: Verdict) -> Result<(), AllocError> {
    match verdict {
        Verdict::Yes { cost } => {
            write!(line, "yes {cost}")?;
        }
        Verdict::No { leg, why } => {
            let why = word_of(why);
            write!(line, "no {leg} {why}")?;
        }
    }
    Ok(())
}

/// A condition in a word.
fn word_of(why: Why) -> &'static str {
    match why {
        Why::Legs => "legs",
        Why::Walk => "walk",
        Why::Bounds => "bounds",
        Why::Start => "start",
        Why::Step => "step",
        Why::Goal => "goal",
    }
}
