//! Cases on shelves.

use case_inputs::{Case, profile_of};
use item_list::{Items, append_bytes, append_named, append_number, bytes_of};
use profile_text::Profile;
use route_ready::Shelf;
use std::alloc::{AllocError, Global};

/// The answer to a case: the place of the name asked for among the names that are stored, and what
/// is stored there.
pub(crate) fn answer(alloc: Global, case: &Case) -> Result<Vec<u8>, AllocError> {
    let mut shelf = Shelf::new(alloc);
    for name in case.text(1).split(',') {
        store(alloc, &mut shelf, name.as_bytes())?;
    }
    shown(alloc, &shelf, case.word(2))
}

/// Stores a profile under a name, where it isn't there, with one assignment more than there are
/// profiles.
fn store(alloc: Global, shelf: &mut Shelf, name: &[u8]) -> Result<(), AllocError> {
    let text = text_of(alloc, shelf.len())?;
    match profile_of(alloc, text.as_slice()) {
        Some(profile) => store_new(alloc, shelf, name, profile),
        None => Ok(()),
    }
}

/// Stores a profile under a name, where it isn't there.
fn store_new(
    alloc: Global,
    shelf: &mut Shelf,
    name: &[u8],
    profile: Profile,
) -> Result<(), AllocError> {
    match shelf.find(name) {
        Some(_) => Ok(()),
        None => {
            let owned = Items::from_vec(bytes_of(alloc, name)?);
            shelf.add(owned, profile)?;
            Ok(())
        }
    }
}

/// The text of a profile with one assignment more than this number.
fn text_of(alloc: Global, number: usize) -> Result<Vec<u8>, AllocError> {
    let mut text = bytes_of(alloc, b"---context:way\nassign x 1\n")?;
    'lines: for _ in 0..number {
        append_bytes(&mut text, b"assign x 1\n")?;
    }
    Ok(text)
}

/// What stands under a name, in one line.
fn shown(alloc: Global, shelf: &Shelf, name: &[u8]) -> Result<Vec<u8>, AllocError> {
    let mut out = Vec::new(alloc);
    match shelf.find(name) {
        Some(place) => {
            append_number(&mut out, u64::from(place))?;
            append_bytes(&mut out, b" ")?;
            append_bytes(&mut out, shelf.name(place).as_slice())?;
            append_named(&mut out, b" with ", shelf.profile(place).way.len() as u64)?;
        }
        None => append_bytes(&mut out, b"none")?,
    }
    append_named(&mut out, b" of ", shelf.len() as u64)?;
    Ok(out)
}
