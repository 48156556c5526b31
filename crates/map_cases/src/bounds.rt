//! Cases on lower bounds by link.

ghost use Rattle.std.specs.Prelude.{◌≡◌, ◌<◌, IfOk, IfSome, length};
ghost use Rattle.ride_bounds.specs.Guides.{IsGuide};

use crate::answers::OUTSIDE;
use crate::given::{Given, rates_of};
use crate::track::facts::given_by_words;
use case_inputs::Case;
use cost_model::{FactsOf, PricedMap, TerrainOf, modes};
use link_order::LinkOrder;
use overpass_graph::Map;
use ride_bounds::{Guide, map_hierarchy, ride_weights};
use std::alloc::{AllocError, Global};
use std::rc::Rc;

/// More steps than the maps of cases take.
const STEPS: u64 = 1_000_000;

/// The bounds of all links: the words are the text of a map, the facts of its links, the number of
/// the target, and whether the links are eliminated from the last one.
pub(crate) fn answer(alloc: Global, case: &Case, map: &Map) -> Result<String, AllocError> {
    let given = given_by_words(alloc, map, case.text(2))?;
    let target = case.count(3);
    if given.count() != map.links() || target >= map.nodes() as u64 {
        return String::from_str(alloc, OUTSIDE);
    }
    match order_of(alloc, map, case.count(4) == 1)? {
        Some(order) => by_order(alloc, map, &given, target as u32, order),
        None => String::from_str(alloc, "no order"),
    }
}

/// The links of a map in the order of their numbers, or from the last one.
fn order_of(alloc: Global, map: &Map, last: bool) -> Result<Option<LinkOrder>, AllocError>
    ensures counted { IfOk result (λ found.
        IfSome found (λ order. length order.links ≡ length map.now.links)) }
{
    let links = numbers(alloc, map.links(), last)?;
    let places = numbers(alloc, map.links(), last)?;
    Ok(LinkOrder::of_lists(links, places))
}

/// So many numbers in their order, or from the last one.
fn numbers(alloc: Global, count: u32, last: bool) -> Result<Vec<u32>, AllocError>
    ensures counted { IfOk result (λ made. length made.items ≡ count) }
{
    let mut made: Vec<u32> = Vec::new(alloc);
    'numbers: for number in 0..count {
        made.push(turned(number, count, last))?;
    }
    Ok(made)
}

/// A number, or the one as far from the last one.
fn turned(number: u32, count: u32, last: bool) -> u32
    requires below { number < count }
{
    if last { count - 1 - number } else { number }
}

/// The bounds over an order.
fn by_order(
    alloc: Global,
    map: &Map,
    given: &Given,
    target: u32,
    order: LinkOrder,
) -> Result<String, AllocError>
    requires counted { length given.now.facts.items ≡ length map.now.links }
    requires order { length order.links ≡ length map.now.links }
    requires in_range { target < length map.now.nodes }
{
    let Some(hierarchy) = map_hierarchy(alloc, map, order, STEPS)? else {
        return String::from_str(alloc, "too large");
    };
    let Some(weights) = ride_weights(alloc, map, &hierarchy, given, STEPS)? else {
        return String::from_str(alloc, "no weights");
    };
    let Some(rates) = rates_of(&[0; 7]) else {
        return String::from_str(alloc, OUTSIDE);
    };
    let guide = Guide::new(Rc::new(alloc, hierarchy)?, weights);
    let terrain = PricedMap::new(map, given, &rates, modes(given));
    told(alloc, terrain, target, &guide)
}

/// The bounds of all links in a line, `-` for none.
fn told<G: TerrainOf>(
    alloc: Global,
    terrain: G,
    target: u32,
    guide: &Guide,
) -> Result<String, AllocError>
    requires fits { IsGuide (G.terrain terrain) guide.now }
    requires in_range { target < length (G.terrain terrain).map.nodes }
{
    let mut bound = guide.lend(alloc)?;
    bound.retarget(alloc, &terrain, guide, target)?;
    let mut line = String::new(alloc);
    'links: for link in 0..terrain.map().links() {
        if link > 0 {
            line.push_str(" ")?;
        }
        match bound.at(alloc, &terrain, guide, target, link)? {
            Some(low) => write!(line, "{low}")?,
            None => line.push_str("-")?,
        }
    }
    guide.give_back(bound);
    Ok(line)
}
