//! The earlier alternatives of a track.

ghost use Rattle.std.specs.Prelude.{◌≡◌, ◌<◌, [], get_or, length};
ghost use Rattle.track_reply.specs.Earlier.{walks_of};

use item_list::Items;

/// How many earlier alternatives there are.
pub(crate) fn alternatives(earlier: &[Items<Items<u32>>]) -> usize
    ensures exact { result ≡ length (get_or earlier.now 0 []) }
{
    match earlier.get(0) {
        Some(walks) => walks.len(),
        None => 0,
    }
}

/// The walk of an earlier alternative on a leg.
pub(crate) fn walk_at(earlier: &[Items<Items<u32>>], leg: usize, number: usize) -> &[u32]
    requires within { leg < length earlier.now }
    ensures exact { result.now ≡ get_or (walks_of earlier.now number) leg [] }
{
    walk_of(earlier[leg].as_slice(), number)
}

/// The walk of an earlier alternative among those of a leg.
fn walk_of(walks: &[Items<u32>], number: usize) -> &[u32]
    ensures exact { result.now ≡ get_or walks.now number [] }
{
    match walks.get(number) {
        Some(walk) => walk.as_slice(),
        None => &[],
    }
}
