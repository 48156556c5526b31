//! The lengths of links as their prices.

ghost use Rattle.std.specs.Prelude.{◌<◌, length};

use geo_int::arrow;
use least_sums::LinkPrices;
use overpass_graph::Map;
use std::alloc::{AllocError, Global};

/// What stands for no length.
pub(crate) const NONE: u32 = 4294967295;

/// The lengths of links in millimetres, by number.
#[derive(Drop)]
pub(crate) struct Lengths {
    pub(crate) lengths: Vec<u32>,
}

impl LinkPrices for Lengths {
    ghost use Rattle.map_cases.specs.Prices.{price-small, length_prices};
    ghost use Rattle.std.specs.Prelude.{length};

    ghost priced = { λ l. record {
      count = length l.lengths.items;
      price =
          length_prices l.lengths.items;
    } };

    ghost small = { λ l link price below is. price-small _ price is };

    fn price(&self, link: u32) -> Option<u128> {
        let length = self.lengths[link as usize];
        if length < NONE {
            Some(length as u128)
        } else {
            None
        }
    }
}

/// The length of a link.
fn length_of(map: &Map, link: u32) -> u32
    requires in_range { link < length map.now.links }
{
    let _ = map.links();
    let ends = map.link(link);
    match arrow(map.node_spot(ends.from), map.node_spot(ends.to)) {
        Some(arrow) => arrow.len as u32,
        None => NONE,
    }
}

/// The lengths of all links.
pub(crate) fn measured(alloc: Global, map: &Map) -> Result<Lengths, AllocError> {
    let mut lengths = Vec::new(alloc);
    'links: for link in 0..map.links() {
        lengths.push(length_of(map, link))?;
    }
    Ok(Lengths { lengths })
}
