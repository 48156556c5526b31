//! What the words of a case stand for: overrides and tag numbers.

use case_inputs::Case;
use context_check::Overrides;
use fixed_num::Num;
use item_list::Items;
use std::alloc::{AllocError, Global};

/// The tag numbers that the words from a place on are.
pub(crate) fn numbers_from(
    alloc: Global,
    case: &Case,
    place: usize,
) -> Result<Vec<u16>, AllocError> {
    let mut numbers = Vec::new(alloc);
    for at in place..case.len() {
        numbers.push(case.text(at).parse::<u16>().unwrap_or(u16::MAX))?;
    }
    Ok(numbers)
}

/// The overrides that the words from a place on write as `NAME:MILLIONTHS`.
pub(crate) fn overrides_from(
    alloc: Global,
    case: &Case,
    place: usize,
) -> Result<Overrides, AllocError> {
    let mut overrides = Overrides::new(alloc);
    for at in place..case.len() {
        if let Some((name, number)) = case.text(at).split_once(':') {
            add(alloc, &mut overrides, name.as_bytes(), number)?;
        }
    }
    Ok(overrides)
}

/// Adds the override of a name, unless its number is none or the name has one.
fn add(
    alloc: Global,
    overrides: &mut Overrides,
    name: &[u8],
    number: &str,
) -> Result<(), AllocError> {
    let millionths = number.parse::<i64>().unwrap_or(i64::MIN);
    match Num::of(millionths) {
        Some(number) if overrides.find(name).is_none() => {
            overrides.push((Items::from_vec(Vec::from_slice(alloc, name)?), number))?;
            Ok(())
        }
        _ => Ok(()),
    }
}
