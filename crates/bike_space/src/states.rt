//! Which states the space of a leg has.

ghost use Rattle.std.specs.Prelude.{◌≡◌, pos, ◌&&◌, int_le, nat_lt};
ghost use Rattle.bike_space.specs.Kept.{task_of};
ghost use Rattle.bike_space.specs.Tasks.{is_carried};

use crate::space::BikeSpace;
use cost_model::{Carry, Rates, TerrainOf};

impl<G: TerrainOf> BikeSpace<G> {
    /// Whether this is a state of the space: its link is one of the map, and both its buffers are
    /// within 0 and the most.
    pub fn has_state(&self, state: &Carry) -> bool
        ensures value { result ≡
            is_carried (task_of (G.terrain self.now.terrain) self.now.kept).leg state.now }
    {
        let rates = self.terrain.rates();
        is_carried(state, self.terrain.map().links(), rates)
    }
}

/// Whether a link is below a count, and both buffers are within 0 and the most.
fn is_carried(state: &Carry, links: u32, rates: &Rates) -> bool
    ensures value { let most = rates.now.limits.most in result ≡ (nat_lt state.now.link links
        && ((int_le (pos 0) state.now.down && int_le state.now.down most)
        && (int_le (pos 0) state.now.up && int_le state.now.up most))) }
{
    state.link < links && (is_held(state.down, rates) && is_held(state.up, rates))
}

/// Whether a buffer is within 0 and the most.
fn is_held(buffer: i64, rates: &Rates) -> bool
    ensures value { result ≡ (int_le (pos 0) buffer && int_le buffer rates.now.limits.most) }
{
    0 <= buffer && buffer <= rates.most()
}
