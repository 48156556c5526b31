//! What a link of a map costs a rider: its facts, the rates of a profile, what it costs to enter a
//! link in five parts, what a walk carries on from it, and how buffers are compared on a map.
#![tactic(auto)]

mod distance;
mod elevation;
mod facts;
mod least;
mod links;
mod map_modes;
mod open_links;
mod parts;
mod rates;
mod terrain;

pub use distance::distance_part;
pub use facts::{FactsOf, LinkFacts};
pub use least::{least_price, low_price};
pub use links::{enter, enter_priced, first};
pub use map_modes::modes;
pub use open_links::{OpenLinks, Passages, is_passable};
pub use parts::{Carry, Parts};
pub use rates::{RateError, Rates};
pub use terrain::{PricedMap, TerrainOf};
