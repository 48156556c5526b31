//! How nodes rank by their distance from a place.

ghost use Rattle.std.specs.Prelude.{◌≡◌, ◌+◌, ◌*◌, ◌/◌, ◌^◌};
ghost use Rattle.geo_int.specs.Arrow.{length_between};
ghost use Rattle.geo_int.specs.Spot.{place_of};
ghost use Rattle.nearest_node.specs.Best.{held_length};

use geo_int::{Spot, arrow};

/// The rank that stands for no node: that of the first node beyond 250 metres.
pub(crate) const NO_RANK: u64 = 250_001 << 32;

/// A length in millimetres that stands for all above 100 kilometres.
const TOO_LONG: u32 = 100_000_001;

/// The rank of a node at a spot: its distance from a place in millimetres above, its number below.
/// All distances above 100 kilometres are one.
pub(crate) fn rank(at: Spot, spot: Spot, node: u32) -> u64
    ensures exact { result ≡
        held_length (length_between (place_of at) (place_of spot)) * 2 ^ 32 + node }
{
    ((distance(at, spot) as u64) << 32) + node as u64
}

/// The distance between two places in millimetres, where it is at most 100 kilometres.
fn distance(at: Spot, spot: Spot) -> u32
    ensures exact { result ≡ held_length (length_between (place_of at) (place_of spot)) }
{
    match arrow(at, spot) {
        Some(found) => found.len as u32,
        None => TOO_LONG,
    }
}

/// So many microdegrees of latitude in millimetres, rounded down.
pub(crate) fn north(microdegrees: u32) -> u64
    ensures exact { result ≡ microdegrees * 11132 / 100 }
{
    microdegrees as u64 * 11_132 / 100
}
