//! The tag table, the profile and the tile that hills are crossed by.

ghost use Rattle.std.specs.Prelude.{◌≡◌, ◌≤◌, ◌<◌, ◌^◌, Ok, IfOk, length};
ghost use Rattle.grid_map.specs.Tile.{hgt_bytes};
ghost use Rattle.hgt_tiles.specs.File.{relief_of_file};
ghost use Rattle.hgt_tiles.specs.Relief.{Relief};
ghost use Rattle.lookup_table.specs.Table.{table_of};
ghost use Rattle.made_routes.specs.Made.{HaveTileAlone};
ghost use Rattle.made_routes.specs.Texts.{hill_text, look_text, tile_name};
ghost use Rattle.profile_text.specs.Expr.{sections_in};
ghost use Rattle.profile_text.specs.Read.{profile_of};

use grid_map::hgt_bytes;
use hgt_tiles::{Tile, TileError, Tiles};
use lookup_table::{LookupError, Table};
use profile_text::{Profile, TextError};
use std::alloc::{AllocError, Global};

/// The text of the tag table.
#[tactic(auto, unfolding(crate::specs::Texts::look_text))]
fn look_text() -> &'static [u8]
    ensures exact { result.now ≡ look_text }
    ensures fits { length result.now < 2 ^ 32 }
{
    b"---lookupversion:10
---minorversion:1

---context:way
reversedirection;0000000000 yes
highway;0000000400 residential
highway;0000000300 primary
highway;0000000200 track
highway;0000000100 cycleway
oneway;0000000020 yes true 1
oneway;0000000010 no
bicycle;0000000020 yes
bicycle;0000000010 no
junction;0000000010 roundabout
route_bicycle_rcn;0000000000 yes

---context:node
nodeaccessgranted;0000000000 yes
barrier;0000000020 gate
barrier;0000000010 bollard
bicycle;0000000020 yes
bicycle;0000000010 no
"
}

/// The text of the profile.
#[tactic(auto, unfolding(crate::specs::Texts::hill_text))]
fn hill_text() -> &'static [u8]
    ensures exact { result.now ≡ hill_text }
    ensures fits { length result.now < 2 ^ 32 }
{
    b"---context:global assign uphillcost 100 assign uphillcutoff 1.5 \
      ---context:way assign costfactor 1"
}

/// The name of the tile.
#[tactic(auto, unfolding(crate::specs::Texts::tile_name))]
fn tile_name() -> &'static [u8]
    ensures exact { result.now ≡ tile_name }
{
    b"N00E000.hgt"
}

/// The tag table of hills, whose text is one.
pub(crate) fn hill_table(alloc: Global) -> Result<Table, AllocError>
    ensures exact { IfOk result (λ table. table_of look_text ≡ Ok table) }
{
    match Table::read(alloc, look_text()) {
        Ok(table) => Ok(table),
        Err(error) => Err(no_memory_for_table(error)),
    }
}

/// The profile of hills, whose text is one.
pub(crate) fn hill_profile(alloc: Global) -> Result<Profile, AllocError>
    ensures exact { IfOk result (λ profile. profile_of hill_text ≡ Ok (sections_in profile)) }
{
    match Profile::read(alloc, hill_text()) {
        Ok(profile) => Ok(profile),
        Err(error) => Err(no_memory_for_profile(error)),
    }
}

/// The tile of a seed alone, whose bytes are one.
pub(crate) fn hill_tiles(alloc: Global, seed: u32) -> Result<Tiles, AllocError>
    requires lawful { seed ≤ 65535 }
    ensures exact { IfOk result (λ tiles.
        (relief : Relief) × (relief_of_file tile_name (hgt_bytes seed) ≡ Ok relief) ×
        HaveTileAlone relief tiles) }
{
    let tile = hill_tile(alloc, seed)?;
    let mut tiles = Tiles::new(alloc);
    tiles.add(tile)?;
    Ok(tiles)
}

/// The tile of a seed.
fn hill_tile(alloc: Global, seed: u32) -> Result<Tile, AllocError>
    requires lawful { seed ≤ 65535 }
    ensures exact { IfOk result (λ tile. relief_of_file tile_name (hgt_bytes seed) ≡ Ok tile) }
{
    let bytes = hgt_bytes(alloc, seed)?;
    match Tile::read(alloc, tile_name(), bytes.as_slice()) {
        Ok(tile) => Ok(tile),
        Err(error) => Err(no_memory_for_tile(error)),
    }
}

/// What is left of a refusal of a table's text: want of memory.
fn no_memory_for_table(_error: LookupError) -> AllocError
    requires only { _error ≡ LookupError.NoMemory }
{
    AllocError
}

/// What is left of a refusal of a profile's text: want of memory.
fn no_memory_for_profile(_error: TextError) -> AllocError
    requires only { _error ≡ TextError.NoMemory }
{
    AllocError
}

/// What is left of a refusal of a tile's file: want of memory.
fn no_memory_for_tile(_error: TileError) -> AllocError
    requires only { _error ≡ TileError.NoMemory }
{
    AllocError
}
