//! What a grid is made from, and what follows from it for each number of a segment.

ghost use Rattle.std.specs.Prelude.{◌≡◌, ◌*◌, ◌<◌, ◌≤◌};
ghost use Rattle.grid_map.specs.Plan.{IsPlan, cells_of, draw_of, has_room, is_there, end_of};
ghost use Rattle.grid_map.specs.Plan.{class_of};
ghost use Rattle.grid_map.specs.Segments.{segment_of};

use crate::segment::GridSegment;

/// What a grid is made from: a seed, and the numbers of cells in a row and in a column.
#[derive(Clone, Copy)]
pub(crate) struct Plan {
    pub(crate) seed: u32,
    pub(crate) width: u32,
    pub(crate) height: u32,
}

impl Plan {
    /// How many cells there are.
    pub(crate) fn cells(self) -> u32
        requires lawful { IsPlan self }
        ensures exact { result ≡ cells_of self }
        ensures within { result ≤ 1000000 }
    {
        self.width * self.height
    }

    /// Whether the grid has the segment of this number.
    #[tactic(auto, unfolding(crate::specs::Plan::is_there))]
    pub(crate) fn is_there(self, k: u32) -> bool
        requires lawful { IsPlan self }
        requires within { k < 2 * cells_of self }
        ensures exact { result ≡ is_there self k }
    {
        self.has_room(k) && self.draw(k) % 4 != 0
    }

    /// The segment of this number.
    #[tactic(auto, unfolding(crate::specs::Plan::class_of))]
    pub(crate) fn segment(self, k: u32) -> GridSegment
        requires lawful { IsPlan self }
        requires within { k < 2 * cells_of self }
        ensures exact { result ≡ segment_of self k }
    {
        GridSegment {
            k,
            a: k / 2,
            b: self.end(k),
            class: (self.draw(k) / 4 % 4) as u8,
        }
    }

    /// The cell to which the segment of this number goes.
    #[tactic(auto, unfolding(crate::specs::Plan::end_of))]
    pub(crate) fn end(self, k: u32) -> u32
        requires lawful { IsPlan self }
        requires within { k < 2 * cells_of self }
        ensures exact { result ≡ end_of self k }
    {
        if k % 2 == 0 {
            k / 2 + 1
        } else {
            k / 2 + self.width
        }
    }

    /// Whether the cell to which the segment of this number goes lies in the grid.
    #[tactic(auto, unfolding(crate::specs::Plan::has_room))]
    fn has_room(self, k: u32) -> bool
        requires lawful { IsPlan self }
        requires within { k < 2 * cells_of self }
        ensures exact { result ≡ has_room self k }
    {
        let cell = k / 2;
        if k % 2 == 0 {
            cell % self.width + 1 < self.width
        } else {
            cell / self.width + 1 < self.height
        }
    }

    /// The number that the seed draws for the segment of this number.
    fn draw(self, k: u32) -> u32
        requires lawful { IsPlan self }
        requires within { k < 2 * cells_of self }
        ensures exact { result ≡ draw_of self.seed k }
    {
        draw(self.seed, k)
    }
}

/// The number that a seed draws for a number.
#[tactic(auto, unfolding(crate::specs::Plan::draw_of))]
pub(crate) fn draw(seed: u32, k: u32) -> u32
    requires seed { seed ≤ 65535 }
    requires within { k < 2000000 }
    ensures exact { result ≡ draw_of seed k }
    ensures fits { result ≤ 4095 }
{
    let number = k as u64;
    let mixed = (seed as u64 + 1) * (number + 1) * 40503 + number * number;
    (mixed % 65536 / 16) as u32
}
