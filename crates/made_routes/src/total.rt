//! What the legs of a track cost together.

ghost use Rattle.std.specs.Prelude.{◌≡◌, ◌<◌, ◌^◌};
ghost use Rattle.track_legs.specs.Sums.{total_cost};

use track_legs::Leg;

/// The costs of all legs, in millionths.
#[tactic(auto, unfolding(track_legs::specs::Sums::total_cost))]
pub(crate) fn total_cost(legs: &[Leg]) -> u128
    requires fits { total_cost legs.now < 2 ^ 127 }
    ensures exact { result ≡ total_cost legs.now }
{
    let mut sum = 0;
    'legs: for place in 0..legs.len() {
        sum += legs[place].cost;
    }
    sum
}
