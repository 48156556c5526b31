//! Links get their places from both ends of an order.

ghost use Rattle.std.specs.Prelude.{◌≡◌, ◌<◌, ◌≤◌, IfOk, IfSome, length};

use crate::link_order::LinkOrder;
use std::alloc::{AllocError, Global};

/// An order in which the first places and the last ones are given; the links between them still wait.
pub(crate) struct Placing {
    pub(crate) order: LinkOrder,
    /// How many of the first places are given.
    low: u32,
    /// The places from this one on are given.
    high: u32,
}

impl Drop for Placing {
    fn drop(self) {
        let Placing {
            order: _,
            low: _,
            high: _,
        } = self;
    }
}

impl Placing {
    /// So many links that wait.
    pub(crate) fn new(alloc: Global, count: u32) -> Result<Placing, AllocError>
        ensures counted { IfOk result (λ placing. length placing.order.links ≡ count) }
    {
        Ok(Placing {
            order: LinkOrder::new(alloc, count)?,
            low: 0,
            high: count,
        })
    }

    /// The order as it stands.
    pub(crate) fn into_order(self) -> LinkOrder
        ensures value { result ≡ self.order }
    {
        let Placing {
            order,
            low: _,
            high: _,
        } = self;
        order
    }

    /// Where a link stands that waits; none of a link that has its place.
    fn waits_at(&self, link: u32) -> Option<u32>
        ensures between { IfSome result (λ place. (self.now.low ≤ place) × (place < self.now.high)) }
    {
        if link >= self.order.len() {
            return None;
        }
        let place = self.order.place(link);
        if place < self.low || place >= self.high {
            return None;
        }
        Some(place)
    }

    /// Whether a link waits.
    pub(crate) fn waits(&self, link: u32) -> bool {
        self.waits_at(link).is_some()
    }

    /// A link that waits gets the first place that isn't given.
    pub(crate) fn put_low(&mut self, link: u32)
        ensures counted { length self.new.order.links ≡ length self.old.order.links }
    {
        if let Some(place) = self.waits_at(link) {
            self.order.exchange(place, self.low);
            self.low += 1;
        }
    }

    /// A link that waits gets the last place that isn't given.
    pub(crate) fn put_high(&mut self, link: u32)
        ensures counted { length self.new.order.links ≡ length self.old.order.links }
    {
        if let Some(place) = self.waits_at(link) {
            self.high -= 1;
            self.order.exchange(place, self.high);
        }
    }
}
