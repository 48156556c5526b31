//! What a walk carries from link to link, and the parts of what a link costs.

ghost use Rattle.std.specs.Prelude.{◌≡◌, ◌≤ℤ◌, ◌<ℤ◌, ◌^◌, pos, true};
ghost use Rattle.cost_model.specs.Parts.{ArePaid, cost_of, ranked, sum_of};

/// What a walk carries: its last link, and the buffers of descending and climbing in micrometres.
#[derive(Clone, Copy)]
pub struct Carry {
    pub link: u32,
    pub down: i64,
    pub up: i64,
}

/// The five parts of what a link costs, in millionths.
#[derive(Clone, Copy)]
pub struct Parts {
    pub distance: i128,
    pub turn: i128,
    pub initial: i128,
    pub node: i128,
    pub elevation: i128,
}

impl Parts {
    /// The sum of the parts.
    pub fn sum(&self) -> i128
        requires paid { ArePaid self.now }
        ensures exact { result ≡ sum_of self.now }
        ensures low { pos 0 ≤ℤ result }
        ensures high { result <ℤ pos (2 ^ 81) }
    {
        self.distance + self.turn + self.initial + self.node + self.elevation
    }

    /// What the parts come to, the distance part once more where the segment was used.
    pub fn price(&self, used: bool) -> u128
        requires paid { ArePaid self.now }
        requires twice { ArePaid (ranked true self.now) }
        ensures exact { result ≡ cost_of (ranked used self.now) }
    {
        let sum = self.sum();
        if used {
            (sum + self.distance) as u128
        } else {
            sum as u128
        }
    }
}
