//! A place on the globe.

ghost use Rattle.std.specs.Prelude.{◌≤◌};

use item_list::TryClone;
use std::alloc::{AllocError, Global};

/// A place, in microdegrees counted from 180 degrees west and from the south pole.
#[derive(Clone, Copy)]
pub struct Spot {
    /// The longitude in microdegrees plus 180,000,000.
    pub ilon: u32,
    /// The latitude in microdegrees plus 90,000,000.
    pub ilat: u32,
    ghost within_longitude: { ilon ≤ 360000000 },
    ghost within_latitude: { ilat ≤ 180000000 },
}

impl TryClone for Spot {
    fn try_clone(&self, _alloc: Global) -> Result<Spot, AllocError> {
        Ok(*self)
    }
}

impl Spot {
    ghost use Rattle.std.specs.Prelude.{◌≡◌, ◌↔◌, IsSome, IfSome};
    ghost use Rattle.geo_int.specs.Place.{place, IsOnGlobe};
    ghost use Rattle.geo_int.specs.Spot.{place_of};

    /// The place at this longitude and latitude in signed microdegrees.
    pub fn new(lon: i64, lat: i64) -> Option<Spot>
        ensures value { IfSome result (λ spot. place_of spot ≡ place lon lat) }
        ensures refused { IsSome result ↔ IsOnGlobe (place lon lat) }
    {
        if lon < -180_000_000 || lon > 180_000_000 || lat < -90_000_000 || lat > 90_000_000 {
            return None;
        }
        Some(Spot {
            ilon: (lon + 180_000_000) as u32,
            ilat: (lat + 90_000_000) as u32,
        })
    }

    /// The longitude in signed microdegrees.
    pub fn lon(self) -> i64
        ensures value { result ≡ (place_of self).lon }
    {
        self.ilon as i64 - 180_000_000
    }

    /// The latitude in signed microdegrees.
    pub fn lat(self) -> i64
        ensures value { result ≡ (place_of self).lat }
    {
        self.ilat as i64 - 90_000_000
    }
}
