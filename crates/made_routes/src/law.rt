//! A law of the texts of grids, the contract of a function that does nothing.

ghost use Rattle.made_routes.specs.Law.{AreReadAsGrids};

use json_text::{fixed_steps, lasting_faults, one_reading};
use map_elements::entries_of_a_tree;

/// The text of each grid's map is read without a fault, and its map is the grid's.
pub fn grids_are_maps()
    ensures exact { AreReadAsGrids }
{
    one_reading();
    fixed_steps();
    lasting_faults();
    entries_of_a_tree();
}
