//! Least sums for so many targets, with the lengths of links as prices.

ghost use Rattle.std.specs.Prelude.{◌≡◌, ◌<◌, ◌≤◌, length};

use crate::timed::lengths::{Lengths, measured};
use crate::timed::words::small_at;
use least_sums::{Sums, least_sums};
use overpass_graph::Map;
use std::alloc::{AllocError, Global};
use std::io;

/// How many nodes have a sum.
fn reached(map: &Map, sums: &Sums) -> u64
    requires counted { length sums.now.sums ≡ length map.now.nodes }
{
    let mut reached = 0u64;
    'nodes: for node in 0..map.nodes() {
        if sums.of(node).is_some() {
            reached = reached.wrapping_add(1);
        }
    }
    reached
}

/// How many nodes have a sum for this target.
fn round(alloc: Global, map: &Map, lengths: &Lengths, target: u32) -> Result<u64, AllocError>
    requires priced { length map.now.links ≤ length lengths.now.lengths.items }
    requires target { target < length map.now.nodes }
{
    let sums = least_sums(alloc, map, lengths, target)?;
    Ok(reached(map, &sums))
}

/// How many nodes have a sum for these targets in all.
fn rounds(alloc: Global, map: &Map, lengths: &Lengths, count: u32) -> Result<u64, AllocError> {
    let nodes = map.nodes();
    let mut all = 0u64;
    if (map.links() as usize) > lengths.lengths.len() || nodes == 0 {
        return Ok(0);
    }
    'rounds: for number in 0..count {
        let target = number.wrapping_mul(7919) % nodes;
        all = all.wrapping_add(round(alloc, map, lengths, target)?);
    }
    Ok(all)
}

/// How many nodes have a sum for so many targets in all, by the lengths of the links.
fn sums_of(alloc: Global, map: &Map, count: u32) -> Result<u64, AllocError> {
    let lengths = measured(alloc, map)?;
    rounds(alloc, map, &lengths, count)
}

/// Prints how many nodes and links the map has, and how many nodes have a sum in all, for as many
/// targets as the words say.
pub(crate) fn run(rt: &HostRuntime, map: &Map, words: &[String]) -> io::Result<()> {
    let count = small_at(words, 0, 1);
    let all = sums_of(rt.alloc(), map, count)?;
    println!(rt;
        "{} nodes, {} links, {count} targets, {all} sums",
        map.nodes(),
        map.links()
    )
}
