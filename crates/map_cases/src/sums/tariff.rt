//! The prices of links by a list.

ghost use Rattle.std.specs.Prelude.{length};
ghost use Rattle.map_cases.specs.Tariffs.{price-small, prices_of};

use least_sums::LinkPrices;

/// What links cost by number. A link with 2^70 or more isn't open.
#[derive(Drop)]
pub(crate) struct Tariff {
    pub(crate) prices: Vec<u128>,
}

impl LinkPrices for Tariff {
    ghost priced = { λ t.
        record { count = length t.prices.items; price = prices_of t.prices.items } };

    ghost small = { λ t link price below is. price-small _ price is };

    fn price(&self, link: u32) -> Option<u128> {
        let price = self.prices[link as usize];
        if price < 1 << 70 { Some(price) } else { None }
    }
}
