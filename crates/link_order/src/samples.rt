//! Where a cell's sources end and its sinks begin, by a sample.

use crate::cells::Cells;
use crate::junctions::Junctions;
use crate::lists::{NONE, at};
use std::alloc::AllocError;

/// How many junctions of a cell are looked at.
const SAMPLE: u32 = 32;

/// Out of a hundred of them these are the sources, and as many the sinks.
const SHARE: usize = 35;

/// Where in a direction the last source of a cell lies, and the first sink. The sample is made anew.
pub(crate) fn limits(
    junctions: &Junctions,
    cells: &Cells,
    north: bool,
    sample: &mut Vec<u64>,
) -> Result<(u64, u64), AllocError> {
    let size = cells.size();
    let count = size.min(SAMPLE);
    sample.clear();
    if count == 0 {
        return Ok((0, 0));
    }
    let stride = size / count;
    let mut place = cells.start;
    'sample: for number in 0..count {
        let _ = number;
        let member = at(&cells.members, place, NONE);
        sample.push(junctions.lies(member, north))?;
        place = place.saturating_add(stride);
    }
    sample.sort_unstable();
    let last = sample.len().saturating_sub(1);
    let low = last / 100 * SHARE + last % 100 * SHARE / 100;
    Ok((item(sample, low), item(sample, last.saturating_sub(low))))
}

/// The item at a place.
fn item(sample: &[u64], place: usize) -> u64 {
    match sample.get(place) {
        Some(item) => *item,
        None => 0,
    }
}
