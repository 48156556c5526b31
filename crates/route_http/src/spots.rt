//! Waypoints.
ghost use Rattle.std.specs.Prelude.{◌≡◌, option_map};
ghost use Rattle.item_list.specs.Answer.{Answers};
ghost use Rattle.geo_int.specs.Spot.{place_of};
ghost use Rattle.route_http.specs.declared.error.RequestError.TheVariants.{NoMemory};
ghost use Rattle.route_http.specs.Seen.{places};
ghost use Rattle.route_http.specs.Value.{place_by, waypoints_of};

use crate::error::RequestError;
use crate::key::Key;
use crate::listed::{Listed, fill};
use crate::parts::at_comma;
use fixed_num::coord;
use geo_int::Spot;
use item_list::Items;
use std::alloc::Global;

/// The most waypoints.
const MOST_WAYPOINTS: usize = 100;

/// The waypoints of a value.
pub(crate) fn waypoints_of(alloc: Global, value: &[u8]) -> Result<Items<Spot>, RequestError>
    ensures exact { Answers places (waypoints_of value.now) NoMemory result }
{
    let mut spots = Items::new(alloc);
    fill(&mut spots, value, b'|', Key::Lonlats, MOST_WAYPOINTS)?;
    if spots.len() < 2 {
        return Err(RequestError::BadValue { key: Key::Lonlats });
    }
    Ok(spots)
}

impl Listed for Spot {
    ghost use Rattle.geo_int.specs.Place.{Place};
    ghost use Rattle.geo_int.specs.Spot.{place_of};
    ghost use Rattle.route_http.specs.Value.{place_of_text};

    ghost Seen = { Place };

    ghost seen = { place_of };

    ghost read = { place_of_text };

    /// The spot of a text `lon,lat`.
    fn of_text(text: &[u8]) -> Option<Spot> {
        let (lon, lat) = at_comma(text);
        spot_by(lon, lat)
    }
}

/// The spot that two texts give.
#[tactic(auto, unfolding(crate::specs::Value::place_by))]
pub(crate) fn spot_by(lon: &[u8], lat: &[u8]) -> Option<Spot>
    ensures exact { option_map place_of result ≡ place_by lon.now lat.now }
{
    match coord(lon, 180_000_000) {
        Err(_) => None,
        Ok(lon) => match coord(lat, 90_000_000) {
            Err(_) => None,
            Ok(lat) => Spot::new(lon, lat),
        },
    }
}
