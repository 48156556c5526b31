//! What the bytes of a reply are told from, beside the track.

use cost_model::{FactsOf, Rates};
use hgt_tiles::Tiles;
use item_list::Name;
use lookup_table::Table;
use overpass_graph::Map;

/// What a reply is told from, beside the track.
#[derive(Drop)]
pub struct Shown<'a, F: FactsOf> {
    /// The map of the track.
    pub map: &'a Map,
    /// The tag table by whose names tags are told.
    pub table: &'a Table,
    /// The tiles by which heights are told.
    pub tiles: &'a Tiles,
    /// The facts of the map's links.
    pub facts: &'a F,
    /// The rates of the profile.
    pub rates: &'a Rates,
    /// The name of the profile.
    pub name: &'a Name,
    /// The number of the alternative.
    pub alternative: u8,
}
