//! What elements consist of, beside their ids and tags.

ghost use Rattle.std.specs.Prelude.{◌≡◌, ℕ, Bool, IfOk};
ghost use Rattle.geo_int.specs.Spot.{place_of};
ghost use Rattle.map_tables.specs.Draft.{same_nodes, same_place, segment_count};

use geo_int::Spot;
use item_list::Items;
use std::alloc::{AllocError, Global};
use std::marker::Model;

/// What an element of a kind consists of.
pub(crate) trait Content: Drop {
    /// Whether two elements consist of the same.
    ghost same: { Self → Self → Bool };

    /// How many parts it has that are counted: segments of a way, members of a relation.
    ghost size: { Self → ℕ };

    /// How many parts are counted.
    fn size(&self) -> usize
        ensures value { result ≡ size self.now };
}

/// What an element is given with, before it is kept.
pub(crate) trait Given<C: Content> {
    /// What it consists of.
    ghost stands: { Self → C };

    /// Whether an element that is kept consists of the same.
    fn is_kept_as(&self, kept: &C) -> bool
        ensures value { result ≡ C.same kept.now (stands self.now) };

    /// What is kept of it.
    fn keep(&self, alloc: Global) -> Result<C, AllocError>
        ensures value { IfOk result (λ kept. kept ≡ stands self.now) };
}

/// Where a node is.
#[derive(Drop)]
pub(crate) struct At {
    spot: Spot,
}

impl Model for At {
    ghost use Rattle.geo_int.specs.Place.{Place};
    ghost use Rattle.geo_int.specs.Spot.{place_of};

    ghost Value = { Place };

    ghost view = { λ a. place_of a.spot };
}

impl At {
    /// At this place.
    pub(crate) fn new(spot: Spot) -> At
        ensures value { result ≡ place_of spot }
    {
        At { spot }
    }

    /// The place.
    pub(crate) fn spot(&self) -> Spot
        ensures value { place_of result ≡ self.now }
    {
        self.spot
    }
}

impl Content for At {
    ghost same = { same_place };

    ghost size = { λ _. 0 };

    fn size(&self) -> usize {
        0
    }
}

impl Given<At> for At {
    ghost stands = { λ given. given };

    fn is_kept_as(&self, kept: &At) -> bool {
        let (here, there) = (kept.spot, self.spot);
        (here.lon() == there.lon()) & (here.lat() == there.lat())
    }

    fn keep(&self, _alloc: Global) -> Result<At, AllocError> {
        Ok(At { spot: self.spot })
    }
}

impl Content for Items<i64> {
    ghost same = { same_nodes };

    ghost size = { segment_count };

    fn size(&self) -> usize {
        segments_of(self.as_slice())
    }
}

/// The nodes that a way is given with.
#[derive(Clone, Copy)]
pub(crate) struct WayNodes<'a> {
    pub(crate) nodes: &'a [i64],
}

impl<'a> Given<Items<i64>> for WayNodes<'a> {
    ghost stands = { λ given. given.nodes.now };

    fn is_kept_as(&self, kept: &Items<i64>) -> bool {
        kept.as_slice() == self.nodes
    }

    fn keep(&self, alloc: Global) -> Result<Items<i64>, AllocError> {
        let nodes = Vec::from_slice(alloc, self.nodes)?;
        Ok(Items::from_vec(nodes))
    }
}

/// How many segments a list of nodes has.
pub(crate) fn segments_of(nodes: &[i64]) -> usize
    ensures value { result ≡ segment_count nodes.now }
{
    if nodes.len() == 0 {
        return 0;
    }
    nodes.len() - 1
}
