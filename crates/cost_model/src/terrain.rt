//! A map, with what its links cost.

ghost use Rattle.std.specs.Prelude.{◌≡◌, ◌<◌, ⊤, length};
ghost use Rattle.cost_model.specs.Facts.{AreLinks};
ghost use Rattle.cost_model.specs.Modes.{modes_of};
ghost use Rattle.cost_model.specs.OpenLinks.{low_price_of};
ghost use Rattle.cost_model.specs.Rides.{Terrain};

use crate::facts::{FactsOf, LinkFacts};
use crate::rates::Rates;
use elev_buffer::Modes;
use overpass_graph::Map;
use std::alloc::AllocError;

/// A map, with the facts of its links and the rates of a profile: a handful of references. No call
/// takes memory.
pub trait TerrainOf: Copy {
    /// The map, the facts of its links, and the prices of the profile.
    ghost terrain: { Self → Terrain };

    /// The map.
    fn map(&self) -> &Map
        ensures value { result.now ≡ (terrain self.now).map };

    /// The facts of a link.
    fn facts(&self, link: u32) -> LinkFacts
        requires within { link < length (terrain self.now).map.links }
        ensures value { result ≡ (terrain self.now).links.facts link };

    /// What it costs to enter a link at least whose segment wasn't used; `None` where its facts don't
    /// let a rider take it.
    fn low_price(&self, link: u32) -> Option<u128>
        requires within { link < length (terrain self.now).map.links }
        ensures value { result ≡ low_price_of ((terrain self.now).links.facts link) };

    /// The rates.
    fn rates(&self) -> &Rates
        ensures value { result.now ≡ (terrain self.now).prices };

    /// How the buffers of two labels are compared on the map.
    fn modes(&self) -> &Modes
        ensures value { result.now ≡ modes_of (terrain self.now).links };

    /// Each link of the map has its facts.
    ghost counted: { (source : Self) →
        (terrain source).links.count ≡ length (terrain source).map.links };

    /// The facts of every link keep the bounds.
    ghost sound: { (source : Self) → AreLinks (terrain source).links };
}

/// A map, with the facts of each of its links, rates, and the modes of those facts.
pub struct PricedMap<'a, F: FactsOf> {
    map: &'a Map,
    facts: &'a F,
    rates: &'a Rates,
    modes: Modes,
    ghost counted: { (F.links facts.now).count ≡ length map.now.links },
    ghost compared: { modes ≡ modes_of (F.links facts.now) },
}

impl<'a, F: FactsOf> Clone for PricedMap<'a, F> {
    ghost is_clone = { λ x y. y ≡ x };

    ghost is_infallible = { λ _. ⊤ };

    fn clone(&self) -> Result<PricedMap<'a, F>, AllocError> {
        Ok(*self)
    }
}

impl<'a, F: FactsOf> Copy for PricedMap<'a, F> {}

impl<'a, F: FactsOf> PricedMap<'a, F> {
    /// A map, with the facts of its links, the rates of a profile and the modes of those facts.
    pub fn new(map: &'a Map, facts: &'a F, rates: &'a Rates, modes: Modes) -> PricedMap<'a, F>
        requires counted { (F.links facts.now).count ≡ length map.now.links }
        requires modes { modes ≡ modes_of (F.links facts.now) }
        ensures map { result.map.now ≡ map.now }
        ensures facts { result.facts.now ≡ facts.now }
        ensures rates { result.rates.now ≡ rates.now }
    {
        PricedMap {
            map,
            facts,
            rates,
            modes,
        }
    }
}

impl<'a, F: FactsOf> TerrainOf for PricedMap<'a, F> {
    ghost use Rattle.cost_model.specs.Rides.{Terrain};

    ghost terrain = { λ it. record {
      map = it.map.now;
      links = F.links it.facts.now;
      prices = it.rates.now;
    } };

    ghost counted = { λ it. it.counted };

    ghost sound = { λ it. F.sound it.facts.now };

    fn map(&self) -> &Map {
        self.map
    }

    fn facts(&self, link: u32) -> LinkFacts {
        self.facts.facts(link)
    }

    fn low_price(&self, link: u32) -> Option<u128> {
        self.facts.low_price(link)
    }

    fn rates(&self) -> &Rates {
        self.rates
    }

    fn modes(&self) -> &Modes {
        &self.modes
    }
}
