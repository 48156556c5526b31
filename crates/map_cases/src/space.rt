//! Cases on walks of least rank.

pub(crate) mod ways;
mod woken;

ghost use Rattle.std.specs.Prelude.{◌≡◌, ◌≢◌, ◌<◌, ◌^◌, IfSome, length};
ghost use Rattle.map_cases.specs.Ends.{AreEnds};

use crate::answers::OUTSIDE;
use crate::given::{Given, rates_of};
use crate::space::ways::given_by_ways;
use crate::space::woken::least_walk_woken;
use bike_space::{BikeSpace, LegAsk, Walk, least_walk};
use case_inputs::{Case, place_of};
use cost_model::{FactsOf, PricedMap, Rates, TerrainOf, modes};
use junction_runs::least_walk_by_runs;
use least_sums::Near;
use overpass_graph::Map;
use space_search::Outcome;
use std::alloc::{AllocError, Global};

/// The searches for a walk: from link to link, from junction to junction, with a space that rests
/// between turns, and with what still has to be paid near the target alone.
const SEARCHES: [&str; 4] = ["walk", "runs", "woken", "ring"];

/// The place of the search near the target alone.
const RING: usize = 3;

/// The two nodes of a walk, and the limit of labels.
#[derive(Clone, Copy)]
struct Ends {
    from: u32,
    target: u32,
    limit: u64,
}

/// The links of a walk of least rank and its rank: by the facts that the words say, whether turn
/// restrictions count, the two nodes, the limit of labels, and the links that are cut and used.
pub(crate) fn answer(alloc: Global, case: &Case, map: &Map) -> Result<String, AllocError> {
    let Some(rates) = rates_of_case(case) else {
        return String::from_str(alloc, OUTSIDE);
    };
    let Some(ends) = ends_of(case, map) else {
        return String::from_str(alloc, OUTSIDE);
    };
    let given = given_by_ways(alloc, case, map)?;
    if given.count() == map.links() {
        told(alloc, walk(alloc, case, map, &given, &rates, ends)?)
    } else {
        String::from_str(alloc, OUTSIDE)
    }
}

/// The rates of the seven global values that words 5 to 11 are.
pub(crate) fn rates_of_case(case: &Case) -> Option<Rates> {
    rates_of(&[
        case.signed(5),
        case.signed(6),
        case.signed(7),
        case.signed(8),
        case.signed(9),
        case.signed(10),
        case.signed(11),
    ])
}

/// The two nodes and the limit that words 12 to 14 are.
fn ends_of(case: &Case, map: &Map) -> Option<Ends>
    ensures found { IfSome result (λ ends.
        AreEnds (length map.now.nodes) ends.from ends.target ends.limit) }
{
    let (from, target, limit) = (case.count(12), case.count(13), case.count(14));
    let nodes = map.nodes() as u64;
    if from >= nodes || target >= nodes || from == target || limit >= 1 << 32 {
        return None;
    }
    Some(Ends {
        from: from as u32,
        target: target as u32,
        limit,
    })
}

/// For each character of a word whether it is 1: a list as long as the word.
pub(crate) fn marks(alloc: Global, word: &[u8]) -> Result<Vec<bool>, AllocError> {
    let mut marks = Vec::new(alloc);
    'signs: for place in 0..word.len() {
        marks.push(word[place] == b'1')?;
    }
    Ok(marks)
}

/// What a search answers between two nodes.
fn walk(
    alloc: Global,
    case: &Case,
    map: &Map,
    given: &Given,
    rates: &Rates,
    ends: Ends,
) -> Result<Outcome<Walk>, AllocError>
    requires counted { length given.now.facts.items ≡ length map.now.links }
    requires ends { AreEnds (length map.now.nodes) ends.from ends.target ends.limit }
{
    let cut = marks(alloc, case.word(15))?;
    let used = marks(alloc, case.word(16))?;
    let terrain = PricedMap::new(map, given, rates, modes(given));
    let ask = LegAsk {
        cut: cut.as_slice(),
        used: used.as_slice(),
        start: ends.from,
        target: ends.target,
        turns: case.count(4) == 1,
    };
    let is_ring = place_of(&SEARCHES, case.word(0)) == RING;
    let near = if is_ring {
        Some(Near::Node(ends.from))
    } else {
        None
    };
    let space = BikeSpace::new(alloc, terrain, &ask, near)?;
    walked(alloc, case, space, terrain, ends.limit)
}

/// What a search over this space of a terrain answers, by the case's first word.
fn walked<G: TerrainOf>(
    alloc: Global,
    case: &Case,
    space: BikeSpace<G>,
    terrain: G,
    limit: u64,
) -> Result<Outcome<Walk>, AllocError>
    requires small { limit < 2 ^ 32 }
    requires differ { space.kept.start ≢ space.kept.target }
    requires terrain { space.terrain ≡ terrain }
{
    match place_of(&SEARCHES, case.word(0)) {
        1 => least_walk_by_runs(alloc, &space, limit),
        2 => least_walk_woken(alloc, space, terrain, limit),
        _ => least_walk(alloc, &space, limit),
    }
}

/// The answer as a line.
fn told(alloc: Global, outcome: Outcome<Walk>) -> Result<String, AllocError> {
    match outcome {
        Outcome::NoWay => String::from_str(alloc, "no way"),
        Outcome::Budget => String::from_str(alloc, "limit spent"),
        Outcome::Found(walk) => walk_told(alloc, walk.links.as_slice(), walk.rank),
    }
}

/// The links of a walk and its rank as a line.
fn walk_told(alloc: Global, walk: &[u32], rank: u128) -> Result<String, AllocError> {
    let mut line = String::new(alloc);
    'links: for link in walk {
        write!(line, "{link} ")?;
    }
    write!(line, "= {rank}")?;
    Ok(line)
}
