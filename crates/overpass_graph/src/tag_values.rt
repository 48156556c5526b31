//! What the tags of a relation say of routes and turn restrictions.

ghost use Rattle.std.specs.Prelude.{◌≡◌, None, Some, MatchOption};
ghost use Rattle.overpass_graph.specs.Restrictions.{excepts_bicycles, kind_for_bicycles as kind_by_tags, kind_of as kind_by_value};
ghost use lib.Chars.{codes};
ghost use Rattle.overpass_graph.specs.RouteTags.{value_of as value_by_name};

use crate::restriction::RestrictionKind;
use crate::texts::names_bicycle;
use item_list::{Items, Name, Tags};
use std::alloc::{AllocError, Global};

/// The value of the first tag of a name.
pub(crate) fn value_of<'a>(tags: &'a Tags, name: &[u8]) -> Option<&'a [u8]>
    ensures value { let found = value_by_name name.now tags.now in
        MatchOption result (found ≡ None) (λ value. found ≡ Some value.now) }
{
    'tags: for tag in tags.as_slice() {
        if tag.0.as_slice() == name {
            return Some(tag.1.as_slice());
        }
    }
    None
}

/// The kind of a restriction by the value of its tag.
fn kind_of(value: &[u8]) -> Option<RestrictionKind>
    ensures value { result ≡ kind_by_value value.now }
{
    if value.starts_with(b"no_") {
        return Some(RestrictionKind::No);
    }
    if value.starts_with(b"only_") {
        return Some(RestrictionKind::Only);
    }
    None
}

/// Whether the restriction of these tags doesn't hold for bicycles.
fn excepts_bicycles(tags: &Tags) -> bool
    ensures value { result ≡ excepts_bicycles (value_by_name (codes "except") tags.now) }
{
    match value_of(tags, b"except".as_slice()) {
        None => false,
        Some(value) => names_bicycle(value),
    }
}

/// The kind of the restriction that a relation with these tags is for bicycles.
pub(crate) fn kind_for_bicycles(tags: &Tags) -> Option<RestrictionKind>
    ensures value { result ≡ kind_by_tags tags.now }
{
    let Some(kind) = value_of(tags, b"type".as_slice()) else {
        return None;
    };
    let Some(value) = value_of(tags, b"restriction".as_slice()) else {
        return None;
    };
    if kind != b"restriction".as_slice() {
        return None;
    }
    if excepts_bicycles(tags) {
        return None;
    }
    kind_of(value)
}
