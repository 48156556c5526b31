//! Searches a strip of cells, each reached with several amounts that are due, to its end, and
//! prints how many labels were settled.

use crate::timed::searching::{settle, word_of};
use crate::timed::strip::Strip;
use crate::timed::words::small_at;
use std::io;

/// How many labels one turn settles at most.
const QUOTA: u32 = 65536;

/// The strip that the words say.
fn strip_of(words: &[String]) -> Strip {
    let rows = small_at(words, 0, 20).clamp(1, 65535);
    let width = small_at(words, 1, 20).clamp(1, 65535);
    let starts = small_at(words, 2, 10);
    let steps = small_at(words, 3, 4);
    let superseding = small_at(words, 4, 0) > 0;
    Strip::new(rows * width, width, starts, steps, superseding)
}

/// Searches the strip that the words say, and prints how many labels were settled.
pub(crate) fn run(rt: &HostRuntime, words: &[String]) -> io::Result<()> {
    let strip = strip_of(words);
    let ended = settle(rt.alloc(), &strip, &mut (), QUOTA, u32::MAX)?;
    println!(rt; "{} labels, {}", ended.labels, word_of(ended.last))
}
