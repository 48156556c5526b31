//! Cases on prices.

ghost use Rattle.std.specs.Prelude.{IfSome};
ghost use Rattle.cost_model.specs.Facts.{AreFacts};

use crate::texts::{NO_CALL, OUTSIDE};
use case_inputs::{Case, place_of};
use cost_model::{LinkFacts, RateError, Rates, distance_part, enter, first, least_price};
use fixed_num::Num;
use geo_int::{Spot, arrow};
use std::alloc::{AllocError, Global};

/// The most of a cost in millionths.
const MOST: i64 = 1_000_000_000_000_000;

/// The calls on prices.
pub(crate) const CALLS: [&str; 4] = ["rates", "distance", "least", "climb"];

/// The answer to a case on prices.
pub(crate) fn answer(alloc: Global, case: &Case) -> Result<String, AllocError> {
    match place_of(&CALLS, case.word(0)) {
        0 => rates(alloc, case),
        1 => distance(alloc, case),
        2 => least(alloc, case),
        3 => climb(alloc, case),
        _ => String::from_str(alloc, NO_CALL),
    }
}

/// The seven global values that the words from a place on are.
fn globals(case: &Case) -> Option<[Num; 7]> {
    let mut globals = [Num::of(0)?; 7];
    for place in 0..7 {
        globals[place] = Num::of(case.signed(place + 1))?;
    }
    Some(globals)
}

/// The two prices and the most of a buffer, or why there are no rates.
fn rates(alloc: Global, case: &Case) -> Result<String, AllocError> {
    let Some(globals) = globals(case) else {
        return String::from_str(alloc, OUTSIDE);
    };
    match Rates::new(&globals) {
        Ok(rates) => {
            format!(in alloc;
                "{} {} {}",
                rates.up_rate(),
                rates.down_rate(),
                rates.most()
            )
        }
        Err(RateError::NegativeRate { which }) => format!(in alloc; "negative {which}"),
        Err(RateError::BufferOrder { penalty, most }) => {
            format!(in alloc; "order {penalty} {most}")
        }
    }
}

/// The facts of a link along the equator of so many microdegrees, up a slope of 24 millimetres for
/// each, with these factors and this charge.
fn facts_of(
    lon: i64,
    costfactor: i64,
    upfactor: i64,
    downfactor: i64,
    charge: i64,
) -> Option<LinkFacts>
    ensures found { IfSome result (λ facts. AreFacts facts) }
{
    let arrow = arrow(Spot::new(0, 0)?, Spot::new(lon, 0)?)?;
    if lon < 0 || lon > 1_000_000 || costfactor < 0 || costfactor > MOST {
        return None;
    }
    if upfactor < 0 || upfactor > MOST || downfactor < 0 || downfactor > MOST {
        return None;
    }
    if charge < 0 || charge > MOST {
        return None;
    }
    Some(LinkFacts {
        arrow,
        rise: 24_000 * lon,
        costfactor,
        turncost: 0,
        initialcost: 0,
        classifier: 0,
        charge,
        granted: false,
        upfactor,
        downfactor,
    })
}

/// The facts of a link that the first four words tell, with this charge.
fn facts_from(case: &Case, charge: i64) -> Option<LinkFacts>
    ensures found { IfSome result (λ facts. AreFacts facts) }
{
    facts_of(
        case.signed(1),
        case.signed(2),
        case.signed(3),
        case.signed(4),
        charge,
    )
}

/// The distance part: microdegrees, the three factors, the weights of descending and climbing.
fn distance(alloc: Global, case: &Case) -> Result<String, AllocError> {
    match facts_from(case, 0) {
        Some(facts) => weighed(alloc, &facts, case.signed(5), case.signed(6)),
        None => String::from_str(alloc, OUTSIDE),
    }
}

/// The distance part by the weights of descending and climbing.
fn weighed(alloc: Global, facts: &LinkFacts, down: i64, up: i64) -> Result<String, AllocError>
    requires facts { AreFacts facts.now }
{
    if down < 0 || down > 1_000_000 || up < 0 || up > 1_000_000 {
        return String::from_str(alloc, OUTSIDE);
    }
    let part = distance_part(facts, down, up);
    format!(in alloc; "{part}")
}

/// What a link costs at least: microdegrees, the three factors, the charge, and whether its segment
/// was used.
fn least(alloc: Global, case: &Case) -> Result<String, AllocError> {
    let used = place_of(&["used"], case.word(6)) == 0;
    match facts_from(case, case.signed(5)) {
        Some(facts) => priced(alloc, &facts, used),
        None => String::from_str(alloc, OUTSIDE),
    }
}

/// What a link of these facts costs at least.
fn priced(alloc: Global, facts: &LinkFacts, used: bool) -> Result<String, AllocError>
    requires facts { AreFacts facts.now }
{
    let price = least_price(facts, used);
    format!(in alloc; "{price}")
}

/// The rates of the seven values, if there are such.
fn rates_of(case: &Case) -> Option<Rates> {
    match Rates::new(&globals(case)?) {
        Ok(rates) => Some(rates),
        Err(_) => None,
    }
}

/// A walk of three links up the slope, of so many microdegrees each, by the rates of seven values:
/// the elevation part and the buffer of climbing behind each link, and the cost of the walk.
fn climb(alloc: Global, case: &Case) -> Result<String, AllocError> {
    match rates_of(case) {
        Some(rates) => climb_by(alloc, case, &rates),
        None => String::from_str(alloc, OUTSIDE),
    }
}

/// The facts of a link of so many microdegrees up the slope, with plain factors.
fn plain_facts(lon: i64) -> Option<LinkFacts>
    ensures found { IfSome result (λ facts. AreFacts facts) }
{
    facts_of(lon, 1_000_000, 1_000_000, 1_000_000, 0)
}

/// The walk by these rates.
fn climb_by(alloc: Global, case: &Case, rates: &Rates) -> Result<String, AllocError> {
    match (
        plain_facts(case.signed(8)),
        plain_facts(case.signed(9)),
        plain_facts(case.signed(10)),
    ) {
        (Some(a), Some(b), Some(c)) => climbed(alloc, rates, &a, &b, &c),
        _ => String::from_str(alloc, OUTSIDE),
    }
}

/// The walk over three links.
fn climbed(
    alloc: Global,
    rates: &Rates,
    a: &LinkFacts,
    b: &LinkFacts,
    c: &LinkFacts,
) -> Result<String, AllocError>
    requires first { AreFacts a.now }
    requires second { AreFacts b.now }
    requires third { AreFacts c.now }
{
    let (behind_a, parts_a) = first(0, a, rates);
    let (behind_b, parts_b) = enter(&behind_a, a, 1, b, rates);
    let (behind_c, parts_c) = enter(&behind_b, b, 2, c, rates);
    let cost = parts_a.sum() + parts_b.sum() + parts_c.sum();
    let (x, y, z) = (parts_a.elevation, parts_b.elevation, parts_c.elevation);
    format!(in alloc;
        "{x} {} {y} {} {z} {} {cost}",
        behind_a.up, behind_b.up, behind_c.up
    )
}
