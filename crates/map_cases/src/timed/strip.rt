//! The space that is searched: a strip of cells, each reached with several amounts that are due.

ghost use Rattle.std.specs.Prelude.{◌≡◌, ◌<◌, ◌≤◌, ◌^◌};
ghost use Rattle.map_cases.specs.Strip.{ahead, back, neighbour};

use space_search::{Point, Space};
use std::alloc::AllocError;

/// Cells in rows of one width, one row behind the other. So many starts lie in the first cell, each
/// with more due and at less cost than the one before, and each cell has so many steps: 0 goes a
/// cell ahead, 1 a row ahead, 2 a cell back, and any other a row back.
/// Where it is `superseding`, it says of each label which older ones it makes needless in the
/// covering test; else it never says so.
#[derive(Drop)]
pub struct Strip {
    cells: u32,
    width: u32,
    starts: u32,
    steps: u32,
    superseding: bool,
    ghost some: { 0 < cells },
    ghost starts_small: { starts < 2 ^ 32 },
    ghost steps_small: { steps < 2 ^ 32 },
}

impl Strip {
    /// The strip of so many cells.
    pub fn new(cells: u32, width: u32, starts: u32, steps: u32, superseding: bool) -> Strip
        requires some { 0 < cells }
        ensures cells { result.cells ≡ cells }
        ensures width { result.width ≡ width }
        ensures starts { result.starts ≡ starts }
        ensures steps { result.steps ≡ steps }
    {
        Strip {
            cells,
            width,
            starts,
            steps,
            superseding,
        }
    }

    /// The cell to which the step of a number leads.
    fn neighbour(&self, number: u32, place: u32) -> Option<u32>
        requires within { place < self.now.cells }
        ensures value { result ≡ neighbour self.now.cells self.now.width number place }
    {
        match number {
            0 => ahead(self.cells, 1, place),
            1 => ahead(self.cells, self.width, place),
            2 => back(1, place),
            _ => back(self.width, place),
        }
    }
}

/// The cell so many cells ahead.
fn ahead(cells: u32, by: u32, place: u32) -> Option<u32>
    requires within { place < cells }
    ensures value { result ≡ ahead cells by place }
{
    if by < cells - place {
        Some(place + by)
    } else {
        None
    }
}

/// The cell so many cells back.
fn back(by: u32, place: u32) -> Option<u32>
    ensures value { result ≡ back by place }
{
    place.checked_sub(by)
}

impl Space for Strip {
    ghost use Rattle.map_cases.specs.Strip.{strip_rules};
    ghost use Rattle.map_cases.specs.StripLaws.{strip-keeps_laws};

    type State = (u32, u32);

    type Bounds = ();

    ghost AreBounds = { λ _ _. Unit {0} };

    ghost rules = { λ s. strip_rules s.cells s.width s.starts s.steps };

    ghost keeps_laws = { λ s. strip-keeps_laws s.cells s.width s.starts s.steps
        s.some s.starts_small s.steps_small };

    fn slots(&self) -> u32 {
        self.cells
    }

    fn slot(&self, state: &(u32, u32)) -> u32 {
        state.0
    }

    fn starts(&self) -> u32 {
        self.starts
    }

    fn start(&self, number: u32) -> Option<((u32, u32), u128)> {
        Some(((0, number), (self.starts - number) as u128))
    }

    fn steps(&self, _state: &(u32, u32)) -> u32 {
        self.steps
    }

    fn step(&self, state: &(u32, u32), number: u32) -> Option<((u32, u32), u128)> {
        let place = self.neighbour(number, state.0)?;
        Some(((place, state.1), number as u128 + 1))
    }

    fn goal(&self, _state: &(u32, u32)) -> bool {
        false
    }

    fn covers(&self, a: &(u32, u32), ca: u128, b: &(u32, u32), cb: u128) -> bool {
        a.0 == b.0 && a.1 <= b.1 && ca <= cb
    }

    fn point(&self, state: &(u32, u32), cost: u128) -> Point {
        Point {
            x: state.1 as i128,
            y: cost as i128,
            z: 0,
        }
    }

    fn supersedes(&self, a: &(u32, u32), _ca: u128, b: &(u32, u32), _cb: u128) -> bool {
        self.superseding && a.0 == b.0 && a.1 <= b.1
    }

    fn low(&self, _bounds: &mut (), _state: &(u32, u32)) -> Result<Option<u128>, AllocError> {
        Ok(Some(0))
    }
}
