//! Tiles by their corners.

ghost use Rattle.std.specs.Prelude.{◌≡◌, ◌≤◌, unsigned_abs, OnOk, OnErr, IsNone, IfSome};
ghost use Rattle.geo_int.specs.Spot.{place_of};
ghost use Rattle.hgt_tiles.specs.Relief.{Relief};
ghost use Rattle.hgt_tiles.specs.declared.names.Corner.{Corner};
ghost use Rattle.hgt_tiles.specs.Tiles.{relief_at, height_of, AddsTile, IsInterpolated};

use crate::names::Corner;
use crate::tile_file::Tile;
use geo_int::Spot;
use std::alloc::{AllocError, Global};
use std::collections::BTreeMap;

/// The tiles that were added, the first of each corner.
#[derive(Drop)]
pub struct Tiles {
    by_corner: BTreeMap<Corner, Tile>,
}

impl Tiles {
    /// No tile.
    pub fn new(alloc: Global) -> Tiles
        ensures empty { (corner : Corner) → IsNone (relief_at result corner) }
    {
        Tiles {
            by_corner: BTreeMap::new(alloc),
        }
    }

    /// Adds a tile, unless there is one of its corner. Where memory runs out, nothing changes.
    pub fn add(&mut self, tile: Tile) -> Result<(), AllocError>
        ensures added { OnOk result (AddsTile self.old self.new tile) }
        ensures kept { OnErr result ((corner : Corner) →
            relief_at self.new corner ≡ relief_at self.old corner) }
    {
        let corner = tile.corner();
        if self.by_corner.contains_key(&corner) {
            return Ok(());
        }
        self.by_corner.insert(corner, tile)?;
        Ok(())
    }

    /// The height of a place in micrometres, none where no tile is there or one of the four samples
    /// around it is void.
    pub fn height(&self, spot: Spot) -> Option<i64>
        ensures exact { result ≡ height_of self.now (place_of spot) }
        ensures within { IfSome result (λ height. unsigned_abs height ≤ 32768000000) }

        // At a sample's own place it is the sample, and between four equal samples it is theirs.
        ensures lawful { IfSome result (IsInterpolated self.now (place_of spot)) }
    {
        let corner = Corner {
            lon: (spot.ilon / 1_000_000) as i16 - 180,
            lat: (spot.ilat / 1_000_000) as i16 - 90,
        };
        let tile = self.by_corner.get(&corner)?;
        tile.height(spot.ilon % 1_000_000, spot.ilat % 1_000_000)
    }
}
