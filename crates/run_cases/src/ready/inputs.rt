//! What the words of a case stand for: overrides and waypoints.

use case_inputs::Case;
use context_check::Overrides;
use fixed_num::Num;
use geo_int::Spot;
use item_list::Items;
use std::alloc::{AllocError, Global};

/// The name and the number that a word writes as `NAME:MILLIONTHS`.
fn override_of(word: &str) -> Option<(&str, Num)> {
    let (name, number) = word.split_once(':')?;
    let millionths = number.parse::<i64>().ok()?;
    Some((name, Num::of(millionths)?))
}

/// Adds an override to a list that has none of its name.
fn add_override(
    alloc: Global,
    overrides: &mut Overrides,
    name: &str,
    number: Num,
) -> Result<(), AllocError> {
    let name = Items::from_vec(Vec::from_slice(alloc, name.as_bytes())?);
    if overrides.find(name.as_slice()).is_none() {
        overrides.push((name, number))?;
    }
    Ok(())
}

/// The overrides that the words from a place on write.
pub(crate) fn overrides_from(
    alloc: Global,
    case: &Case,
    place: usize,
) -> Result<Overrides, AllocError> {
    let mut overrides = Overrides::new(alloc);
    for at in place..case.len() {
        if let Some((name, number)) = override_of(case.text(at)) {
            add_override(alloc, &mut overrides, name, number)?;
        }
    }
    Ok(overrides)
}

/// The place that a word writes as `LON,LAT` in microdegrees.
pub(crate) fn spot_of(word: &str) -> Option<Spot> {
    let (lon, lat) = word.split_once(',')?;
    let lon = lon.parse::<i64>().ok()?;
    let lat = lat.parse::<i64>().ok()?;
    Spot::new(lon, lat)
}

/// The places of a word, parted by `|`; what is no place counts for nothing.
pub(crate) fn spots_of(alloc: Global, word: &str) -> Result<Vec<Spot>, AllocError> {
    let mut spots = Vec::new(alloc);
    for piece in word.split('|') {
        if let Some(spot) = spot_of(piece) {
            spots.push(spot)?;
        }
    }
    Ok(spots)
}
