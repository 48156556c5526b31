//! A space that is searched: cells one behind the other.

ghost use Rattle.std.specs.Prelude.{◌≡◌, ◌<◌, ◌^◌};
ghost use Rattle.cases.specs.Line.{neighbour};

use space_search::{Point, Space};
use std::alloc::AllocError;
use std::cell::Cell;

/// Cells one behind the other, each with so many steps: 0 leads a cell ahead, any other a cell
/// back. So many starts lie in the first cell, each with more due and at less cost than the one
/// before, and the last at no cost. The goal may lie behind the last cell. Where it is
/// `superseding`, a label makes those needless in the covering test that have as much due in its
/// cell; else it never does. It counts the calls of `step`.
#[derive(Drop)]
pub(crate) struct Line {
    pub(crate) cells: u32,
    pub(crate) goal: u32,
    pub(crate) starts: u32,
    pub(crate) steps: u32,
    pub(crate) superseding: bool,
    calls: Cell<u64>,
    ghost some: { 0 < cells },
    ghost starts_small: { starts < 2 ^ 32 },
    ghost steps_small: { steps < 2 ^ 32 },
}

impl Line {
    /// A line of so many cells, with one start and one step.
    pub(crate) fn new(cells: u32, goal: u32) -> Line
        requires some { 0 < cells }
    {
        Line {
            cells,
            goal,
            starts: 1,
            steps: 1,
            superseding: false,
            calls: Cell::new(0),
        }
    }

    /// A line of so many cells and starts, with steps ahead and back and no goal.
    pub(crate) fn both_ways(cells: u32, starts: u32, superseding: bool) -> Line
        requires some { 0 < cells }
    {
        Line {
            cells,
            goal: cells,
            starts,
            steps: 2,
            superseding,
            calls: Cell::new(0),
        }
    }

    /// How many times `step` was called.
    pub(crate) fn calls(&self) -> u64 {
        self.calls.get()
    }
}

/// The cell to which the step of a number leads.
fn neighbour(cells: u32, number: u32, place: u32) -> Option<u32>
    requires within { place < cells }
    ensures value { result ≡ neighbour cells number place }
{
    if number == 0 {
        if 1 < cells - place {
            Some(place + 1)
        } else {
            None
        }
    } else {
        place.checked_sub(1)
    }
}

impl Space for Line {
    ghost use Rattle.cases.specs.Line.{line_rules};
    ghost use Rattle.cases.specs.LineLaws.{line-keeps_laws};

    type State = (u32, u32);

    type Bounds = ();

    ghost AreBounds = { λ _ _. Unit {0} };

    ghost rules = { λ line. line_rules line.cells line.goal line.starts line.steps };

    ghost keeps_laws = { λ line. line-keeps_laws line.cells line.goal line.starts line.steps
        line.some line.starts_small line.steps_small };

    fn slots(&self) -> u32 {
        self.cells
    }

    fn slot(&self, state: &(u32, u32)) -> u32 {
        state.0
    }

    fn starts(&self) -> u32 {
        self.starts
    }

    fn start(&self, number: u32) -> Option<((u32, u32), u128)> {
        Some(((0, number), (self.starts - 1 - number) as u128))
    }

    fn steps(&self, _state: &(u32, u32)) -> u32 {
        self.steps
    }

    fn step(&self, state: &(u32, u32), number: u32) -> Option<((u32, u32), u128)> {
        let place = neighbour(self.cells, number, state.0);
        self.calls.set(self.calls.get().wrapping_add(1));
        Some(((place?, state.1), number as u128 + 1))
    }

    fn goal(&self, state: &(u32, u32)) -> bool {
        state.0 == self.goal
    }

    fn covers(&self, a: &(u32, u32), ca: u128, b: &(u32, u32), cb: u128) -> bool {
        a.0 == b.0 && a.1 <= b.1 && ca <= cb
    }

    fn point(&self, state: &(u32, u32), cost: u128) -> Point {
        Point {
            x: state.1 as i128,
            y: cost as i128,
            z: 0,
        }
    }

    fn supersedes(&self, a: &(u32, u32), _ca: u128, b: &(u32, u32), _cb: u128) -> bool {
        self.superseding && a.0 == b.0 && a.1 <= b.1
    }

    fn low(&self, _bounds: &mut (), _state: &(u32, u32)) -> Result<Option<u128>, AllocError> {
        Ok(Some(0))
    }
}
