//! An order of links.

ghost use Rattle.std.specs.Prelude.{◌≡◌, ◌<◌, IfOk, IfSome, IsTrue, length};
ghost use Rattle.link_order.specs.Orders.{IsOrder, LeadsBack, link_at, place_of};

use crate::lists::ascending;
use std::alloc::{AllocError, Global};
use std::marker::Model;

/// For each place the link that stands there, and for each link its place. The first is the least
/// important one, which is eliminated first.
pub struct LinkOrder {
    links: Vec<u32>,
    places: Vec<u32>,
}

impl Drop for LinkOrder {
    fn drop(self) {
        let LinkOrder {
            links: _,
            places: _,
        } = self;
    }
}

impl Model for LinkOrder {
    ghost use Rattle.link_order.specs.Orders.{IsOrder, Order};

    ghost Value = { Order };

    ghost view = { λ o. record { links = o.links.items; places = o.places.items } };

    ghost invariant = { λ o.
        IsOrder (record { links = o.links.items; places = o.places.items }) };
}

impl LinkOrder {
    /// So many links in the order of their numbers.
    pub(crate) fn new(alloc: Global, count: u32) -> Result<LinkOrder, AllocError>
        ensures counted { IfOk result (λ order. length order.links ≡ count) }
    {
        let links = ascending(alloc, count)?;
        let places = ascending(alloc, count)?;
        Ok(LinkOrder { links, places })
    }

    /// The order of these lists, where both are as long and inverse to each other.
    pub fn of_lists(links: Vec<u32>, places: Vec<u32>) -> Option<LinkOrder>
        ensures value { IfSome result (λ order. order.links ≡ links.items) }
    {
        if are_inverse(links.as_slice(), places.as_slice()) {
            Some(LinkOrder { links, places })
        } else {
            None
        }
    }

    /// How many links there are.
    pub fn len(&self) -> u32
        ensures value { result ≡ length self.now.links }
        ensures lawful { IsOrder self.now }
    {
        self.links.len() as u32
    }

    /// The link at a place.
    pub fn link(&self, place: u32) -> u32
        requires in_range { place < length self.now.links }
        ensures value { result ≡ link_at self.now place }
        ensures lawful { IsOrder self.now }
    {
        self.links[place as usize]
    }

    /// The place of a link.
    pub fn place(&self, link: u32) -> u32
        requires in_range { link < length self.now.links }
        ensures value { result ≡ place_of self.now link }
        ensures lawful { IsOrder self.now }
    {
        self.places[link as usize]
    }

    /// The links of two places are exchanged; nothing happens where there is no such place.
    pub(crate) fn exchange(&mut self, first: u32, second: u32)
        ensures counted { length self.new.links ≡ length self.old.links }
    {
        let (p, q) = (first as usize, second as usize);
        if p >= self.links.len() || q >= self.links.len() {
            return;
        }
        let a = self.links[p];
        let b = self.links[q];
        self.links[p] = b;
        self.links[q] = a;
        self.places[a as usize] = second;
        self.places[b as usize] = first;
    }
}

/// Whether two lists are as long, not too long, and inverse to each other.
fn are_inverse(links: &[u32], places: &[u32]) -> bool
    ensures sound { IsTrue result → IsOrder (record { links = links.now; places = places.now }) }
{
    links.len() == places.len()
        && links.len() < 0x1_0000_0000
        && leads_back(links, places)
        && leads_back(places, links)
}

/// Whether each item of a list is a place of the other one, where its own place stands.
fn leads_back(there: &[u32], back: &[u32]) -> bool
    ensures sound { IsTrue result → LeadsBack there.now back.now (length there.now) }
{
    'places: for place in 0..there.len() {
        let at = there[place] as usize;
        if at >= back.len() || back[at] as usize != place {
            return false;
        }
    }
    true
}
