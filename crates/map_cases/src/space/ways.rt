//! The facts of the links of a map by the words of a case.

ghost use Rattle.std.specs.Prelude.{IfSome};
ghost use Rattle.geo_int.specs.Arrow.{IsArrow};
ghost use Rattle.cost_model.specs.Facts.{AreFacts};

use crate::given::{Given, MOST, MOST_RISE};
use case_inputs::Case;
use cost_model::LinkFacts;
use geo_int::{Arrow, arrow};
use overpass_graph::{Link, Map};
use std::alloc::{AllocError, Global};

/// The first word of the factors of ways, of which each has four.
const FACTORS: usize = 17;

/// The facts of the first links of a map, up to one for which the words give none that the calls
/// take.
pub(crate) fn given_by_ways(alloc: Global, case: &Case, map: &Map) -> Result<Given, AllocError> {
    let mut given = Given::new(alloc);
    'links: for link in 0..map.links() {
        match facts_of(case, map, map.link(link)) {
            Some(facts) => given.push(facts)?,
            None => return Ok(given),
        }
    }
    Ok(given)
}

/// The facts of a link: the slope in micrometres for a microdegree of longitude is word 2, the turn
/// cost of all ways word 3, and a way's factors forward, backward, for climbing and for descending
/// are its own words, 0 standing for costfactor in the last two.
fn facts_of(case: &Case, map: &Map, link: Link) -> Option<LinkFacts>
    ensures found { IfSome result (λ facts. AreFacts facts) }
{
    if link.from >= map.nodes() || link.to >= map.nodes() || link.way > 1_000_000 {
        return None;
    }
    let (from, to) = (map.node_spot(link.from), map.node_spot(link.to));
    let way = FACTORS + 4 * link.way as usize;
    let place = if link.back { way + 1 } else { way };
    let costfactor = case.signed(place);
    let up = or_costfactor(case.signed(way + 2), costfactor);
    let down = or_costfactor(case.signed(way + 3), costfactor);
    let rise = case
        .signed(2)
        .checked_mul(to.lon().checked_sub(from.lon())?)?;
    made(arrow(from, to)?, rise, costfactor, case.signed(3), up, down)
}

/// A factor for climbing or descending, for which costfactor stands where it is 0.
fn or_costfactor(factor: i64, costfactor: i64) -> i64 {
    if factor == 0 { costfactor } else { factor }
}

/// The facts of a link with this arrow, rise and costs, where they keep the bounds.
fn made(
    arrow: Arrow,
    rise: i64,
    costfactor: i64,
    turncost: i64,
    up: i64,
    down: i64,
) -> Option<LinkFacts>
    requires arrow { IsArrow arrow }
    ensures found { IfSome result (λ facts. AreFacts facts) }
{
    if rise < -MOST_RISE || rise > MOST_RISE || costfactor < 0 || costfactor > MOST {
        return None;
    }
    if turncost < 0 || turncost > MOST || up < 0 || up > MOST || down < 0 || down > MOST {
        return None;
    }
    Some(LinkFacts {
        arrow,
        rise,
        costfactor,
        turncost,
        initialcost: 0,
        classifier: 0,
        charge: 0,
        granted: false,
        upfactor: up,
        downfactor: down,
    })
}
