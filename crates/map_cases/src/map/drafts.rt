//! Readers with small limits.

use crate::map::shown::fault_text;
use case_inputs::Case;
use map_elements::DraftReader;
use map_tables::{Limits, MapError, Tables};
use std::alloc::{AllocError, Global};

/// A number of a case, of 32 bits.
fn count(case: &Case, place: usize) -> u32 {
    u32::try_from(case.count(place)).unwrap_or(u32::MAX)
}

/// The elements of a text within limits, or its first fault.
fn read(alloc: Global, limits: Limits, text: &[u8]) -> Result<Tables, MapError> {
    let mut reader = DraftReader::new(alloc, limits);
    if text.len() < 1 << 60 {
        reader.feed(text)?;
    }
    reader.finish()
}

/// How many elements a text has within the limits of a case.
pub(crate) fn limited(alloc: Global, case: &Case) -> Result<String, AllocError> {
    let limits = Limits {
        nodes: count(case, 1),
        ways: count(case, 2),
        segments: count(case, 3),
        members: count(case, 4),
    };
    match read(alloc, limits, case.word(5)) {
        Ok(tables) => format!(in alloc;
            "{} nodes, {} ways, {} relations",
            tables.nodes(),
            tables.ways(),
            tables.relations()
        ),
        Err(e) => fault_text(alloc, e),
    }
}
