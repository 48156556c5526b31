//! Tracks of words.

use item_list::Items;
use std::alloc::{AllocError, Global};
use track_legs::{Leg, Track};

/// The numbers of a word, parted by commas; what is no number is the greatest one.
pub(crate) fn numbers(alloc: Global, word: &str) -> Result<Items<u32>, AllocError> {
    let mut list = Items::new(alloc);
    if word.is_empty() {
        return Ok(list);
    }
    for number in word.split(',') {
        list.push(number.parse::<u32>().unwrap_or(u32::MAX))?;
    }
    Ok(list)
}

/// The leg of a word: its links, and its cost behind `=`.
fn leg(alloc: Global, word: &str) -> Result<Leg, AllocError> {
    let (links, cost) = word.split_once('=').unwrap_or((word, ""));
    Ok(Leg {
        links: numbers(alloc, links)?,
        cost: cost.parse::<u128>().unwrap_or(u128::MAX),
        rank: 0,
    })
}

/// The legs of a word, parted by `|`.
fn legs(alloc: Global, word: &str) -> Result<Items<Leg>, AllocError> {
    let mut list = Items::new(alloc);
    if word.is_empty() {
        return Ok(list);
    }
    for part in word.split('|') {
        list.push(leg(alloc, part)?)?;
    }
    Ok(list)
}

/// The track of two words: its nodes and its legs.
pub(crate) fn track(alloc: Global, nodes: &str, words: &str) -> Result<Track, AllocError> {
    let nodes = numbers(alloc, nodes)?;
    let legs = legs(alloc, words)?;
    Ok(Track {
        nodes,
        legs,
        earlier: Items::new(alloc),
    })
}
