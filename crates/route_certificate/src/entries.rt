//! Labels as states of a space.

ghost use Rattle.std.specs.Prelude.{◌≡◌, ◌↔◌, IsTrue};
ghost use Rattle.bike_space.specs.Kept.{task_of};
ghost use Rattle.route_certificate.specs.Entries.{carry_of};
ghost use Rattle.route_certificate.specs.Legs.{AreInBounds, IsInBounds};

use bike_space::BikeSpace;
use certificate_text::Entry;
use cost_model::{Carry, TerrainOf};

/// What a walk with this label carries.
pub(crate) fn carry(entry: &Entry) -> Carry
    ensures value { result ≡ carry_of entry.now }
{
    Carry {
        link: entry.link,
        down: entry.down,
        up: entry.up,
    }
}

/// Whether each label is in bounds.
pub(crate) fn are_in_bounds<G: TerrainOf>(space: &BikeSpace<G>, entries: &[Entry]) -> bool
    ensures exact { IsTrue result ↔ AreInBounds
        (task_of (G.terrain space.now.terrain) space.now.kept).leg entries.now }
{
    'entries: for place in 0..entries.len() {
        if !is_in_bounds(space, &entries[place]) {
            return false;
        }
    }
    true
}

/// Whether a label is in bounds.
fn is_in_bounds<G: TerrainOf>(space: &BikeSpace<G>, entry: &Entry) -> bool
    ensures exact { IsTrue result ↔ IsInBounds
        (task_of (G.terrain space.now.terrain) space.now.kept).leg entry.now }
{
    entry.cost < (1 << 120) && space.has_state(&carry(entry))
}
