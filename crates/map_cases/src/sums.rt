//! Cases on least sums.

mod tariff;

ghost use Rattle.std.specs.Prelude.{◌≡◌, ◌<◌, ◌≤◌, length};

use crate::answers::OUTSIDE;
use crate::sums::tariff::Tariff;
use case_inputs::Case;
use least_sums::{Near, Sums, least_sums, least_sums_near};
use overpass_graph::Map;
use std::alloc::{AllocError, Global};

/// The least sums of all nodes: the words are the text of a map, the number of the target, and what
/// each link costs.
pub(crate) fn all_sums(alloc: Global, case: &Case, map: &Map) -> Result<String, AllocError> {
    let target = case.count(2);
    if target >= map.nodes() as u64 {
        return String::from_str(alloc, OUTSIDE);
    }
    let tariff = tariff_of(alloc, case, 3)?;
    if map.links() as usize <= tariff.prices.len() {
        told(alloc, map, &tariff, target as u32)
    } else {
        String::from_str(alloc, OUTSIDE)
    }
}

/// The least sums up to a radius of all nodes: the words are the text of a map, the numbers of the
/// target and of the start, and what each link costs.
pub(crate) fn near_sums(alloc: Global, case: &Case, map: &Map) -> Result<String, AllocError> {
    let (target, start) = (case.count(2), case.count(3));
    if target >= map.nodes() as u64 || start >= map.nodes() as u64 {
        return String::from_str(alloc, OUTSIDE);
    }
    let tariff = tariff_of(alloc, case, 4)?;
    if map.links() as usize <= tariff.prices.len() {
        let sums = least_sums_near(alloc, map, &tariff, target as u32, Near::Node(start as u32))?;
        line(alloc, map, &sums)
    } else {
        String::from_str(alloc, OUTSIDE)
    }
}

/// What links cost by the words from a place on; what is no number isn't open.
fn tariff_of(alloc: Global, case: &Case, first: usize) -> Result<Tariff, AllocError> {
    let mut prices = Vec::new(alloc);
    'places: for place in first..case.len() {
        prices.push(case.size(place))?;
    }
    Ok(Tariff { prices })
}

/// The least sums to a target as a line.
fn told(alloc: Global, map: &Map, tariff: &Tariff, target: u32) -> Result<String, AllocError>
    requires priced { length map.now.links ≤ length tariff.now.prices.items }
    requires in_range { target < length map.now.nodes }
{
    let sums = least_sums(alloc, map, tariff, target)?;
    line(alloc, map, &sums)
}

/// The sums of all nodes in a line, `-` for none.
fn line(alloc: Global, map: &Map, sums: &Sums) -> Result<String, AllocError>
    requires counted { length sums.now.sums ≡ length map.now.nodes }
{
    let mut line = String::new(alloc);
    'nodes: for node in 0..map.nodes() {
        if node > 0 {
            line.push_str(" ")?;
        }
        match sums.of(node) {
            Some(sum) => write!(line, "{sum}")?,
            None => line.push_str("-")?,
        }
    }
    Ok(line)
}
