//! The facts of links by words.

ghost use Rattle.std.specs.Prelude.{◌<◌, IfSome, length};
ghost use Rattle.geo_int.specs.Arrow.{IsArrow};
ghost use Rattle.cost_model.specs.Facts.{AreFacts, IsCost};

use crate::given::{Given, MOST, MOST_RISE};
use cost_model::{FactsOf, LinkFacts};
use geo_int::{Arrow, arrow};
use overpass_graph::Map;
use std::alloc::{AllocError, Global};

/// The facts of the first links of a map by words parted by `|`, up to a word that says none.
pub(crate) fn given_by_words(alloc: Global, map: &Map, words: &str) -> Result<Given, AllocError> {
    let mut given = Given::new(alloc);
    'words: for word in words.split('|') {
        let link = given.count();
        if link >= map.links() {
            return Ok(given);
        }
        match facts_of_word(map, link, word) {
            Some(facts) => given.push(facts)?,
            None => return Ok(given),
        }
    }
    Ok(given)
}

/// The facts of a link by the numbers of a word: costfactor, turncost, initialcost, classifier,
/// charge, rise, and the factors for climbing and descending, which are costfactor where they don't
/// stand there.
fn facts_of_word(map: &Map, link: u32, word: &str) -> Option<LinkFacts>
    requires in_range { link < length map.now.links }
    ensures found { IfSome result (λ facts. AreFacts facts) }
{
    let _links = map.links();
    let taken = map.link(link);
    match arrow(map.node_spot(taken.from), map.node_spot(taken.to)) {
        Some(found) => Some(facts_along(found, word)),
        None => None,
    }
}

/// The facts of a link along an arrow.
fn facts_along(arrow: Arrow, word: &str) -> LinkFacts
    requires arrow { IsArrow arrow }
    ensures exact { AreFacts result }
{
    let costfactor = cost(word, 0, 0);
    LinkFacts {
        arrow,
        rise: number(word, 5, 0).clamp(-MOST_RISE, MOST_RISE),
        costfactor,
        turncost: cost(word, 1, 0),
        initialcost: cost(word, 2, 0),
        classifier: number(word, 3, 0).clamp(-MOST, MOST),
        charge: cost(word, 4, 0),
        granted: false,
        upfactor: cost(word, 6, costfactor),
        downfactor: cost(word, 7, costfactor),
    }
}

/// The cost at a place of a word, held within its bounds.
fn cost(word: &str, place: usize, otherwise: i64) -> i64
    ensures found { IsCost result }
{
    number(word, place, otherwise).clamp(0, MOST)
}

/// The number at a place of a word, whose numbers are parted by commas; another one where none
/// stands there.
pub(crate) fn number(word: &str, place: usize, otherwise: i64) -> i64 {
    match word.split(',').nth(place) {
        Some(text) => text.parse::<i64>().unwrap_or(otherwise),
        None => otherwise,
    }
}
