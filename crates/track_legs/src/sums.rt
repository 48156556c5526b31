//! What the legs of a track cost and rank together.

ghost use Rattle.std.specs.Prelude.{◌≡◌, ◌<◌, ◌^◌};
ghost use Rattle.track_legs.specs.Sums.{total_cost, total_rank};

use crate::track::Leg;

/// The costs of all legs, in millionths.
#[tactic(auto, unfolding(crate::specs::Sums::total_cost))]
pub fn total_cost(legs: &[Leg]) -> u128
    requires fits { total_cost legs.now < 2 ^ 127 }
    ensures exact { result ≡ total_cost legs.now }
{
    let mut sum = 0;
    'legs: for place in 0..legs.len() {
        sum += legs[place].cost;
    }
    sum
}

/// The ranks of all legs, in millionths.
#[tactic(auto, unfolding(crate::specs::Sums::total_rank))]
pub fn total_rank(legs: &[Leg]) -> u128
    requires fits { total_rank legs.now < 2 ^ 127 }
    ensures exact { result ≡ total_rank legs.now }
{
    let mut sum = 0;
    'legs: for place in 0..legs.len() {
        sum += legs[place].rank;
    }
    sum
}
