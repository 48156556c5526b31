//! Tracks of words.

use item_list::{Items, Name};
use std::alloc::{AllocError, Global};
use track_legs::{Leg, Track};

/// The bytes of a word.
pub(crate) fn name_of(alloc: Global, word: &[u8]) -> Result<Name, AllocError> {
    Ok(Items::from_vec(Vec::from_slice(alloc, word)?))
}

/// The numbers of a word, parted by commas; what is no number is the greatest one.
fn numbers(alloc: Global, word: &str) -> Result<Items<u32>, AllocError> {
    let mut list = Items::new(alloc);
    if word.is_empty() {
        return Ok(list);
    }
    for number in word.split(',') {
        list.push(number.parse::<u32>().unwrap_or(u32::MAX))?;
    }
    Ok(list)
}

/// A sum in millionths; the greatest one where the word is none.
fn sum(word: &str) -> u128 {
    word.parse::<u128>().unwrap_or(u128::MAX)
}

/// The leg of a word: its links, and behind `=` its cost and behind another its rank, or its cost
/// again.
fn leg(alloc: Global, word: &str) -> Result<Leg, AllocError> {
    let (links, sums) = word.split_once('=').unwrap_or((word, ""));
    let (cost, rank) = sums.split_once('=').unwrap_or((sums, sums));
    Ok(Leg {
        links: numbers(alloc, links)?,
        cost: sum(cost),
        rank: sum(rank),
    })
}

/// The legs of a word, parted by `|`.
fn legs(alloc: Global, word: &str) -> Result<Items<Leg>, AllocError> {
    let mut list = Items::new(alloc);
    if word.is_empty() {
        return Ok(list);
    }
    for part in word.split('|') {
        list.push(leg(alloc, part)?)?;
    }
    Ok(list)
}

/// The walks of a word, parted by `|`.
fn walks(alloc: Global, word: &str) -> Result<Items<Items<u32>>, AllocError> {
    let mut list = Items::new(alloc);
    for part in word.split('|') {
        list.push(numbers(alloc, part)?)?;
    }
    Ok(list)
}

/// The walks of earlier alternatives of the legs of a word, which are parted by `/`.
fn alternatives(alloc: Global, word: &str) -> Result<Items<Items<Items<u32>>>, AllocError> {
    let mut list = Items::new(alloc);
    if word == "-" {
        return Ok(list);
    }
    for part in word.split('/') {
        list.push(walks(alloc, part)?)?;
    }
    Ok(list)
}

/// The track of three words: its nodes, its legs and the earlier alternatives.
pub(crate) fn track(
    alloc: Global,
    nodes: &str,
    words: &str,
    earlier: &str,
) -> Result<Track, AllocError> {
    let nodes = numbers(alloc, nodes)?;
    let legs = legs(alloc, words)?;
    let earlier = alternatives(alloc, earlier)?;
    Ok(Track {
        nodes,
        legs,
        earlier,
    })
}
