//! The cells of a run.

ghost use Rattle.std.specs.Prelude.{◌≡◌, ◌<◌, IfOk, IsTrue};
ghost use Rattle.grid_map.specs.Rules.{rules_of};
ghost use Rattle.grid_map.specs.Space.{IsSomeRun, state_or, states_of};

use crate::space::GridSpace;
use item_list::Items;
use space_search::Space;
use std::alloc::{AllocError, Global};

impl<'a> GridSpace<'a> {
    /// The cells of the walk that a run of this space is, the first and the last among them; the
    /// choices are the run's, its start's number and then its steps' numbers.
    pub fn walk(&self, alloc: Global, choices: &[u32]) -> Result<Items<u32>, AllocError>
        requires run { IsSomeRun (rules_of self.now) choices.now }
        ensures exact { IfOk result (λ cells. cells ≡ states_of (rules_of self.now) choices.now) }
    {
        let [_start, numbers @ ..] = choices else {
            return Ok(Items::new(alloc));
        };
        let mut cells = Vec::with_capacity(alloc, choices.len())?;
        let mut cell = self.from;
        'steps: for number in numbers {
            cells.push(cell)?;
            cell = self.next(cell, *number);
        }
        cells.push(cell)?;
        Ok(Items::from_vec(cells))
    }

    /// The cell to which a step leads, or the same cell where it isn't permitted.
    fn next(&self, cell: u32, number: u32) -> u32
        requires valid { IsTrue ((rules_of self.now).is_valid cell) }
        requires within { number < 4 }
        ensures exact { result ≡ state_or ((rules_of self.now).step cell number) cell }
    {
        match self.step(&cell, number) {
            Some(found) => found.0,
            None => cell,
        }
    }
}
