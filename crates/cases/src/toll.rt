//! A space that is searched: a state is a place and what is due at its next step.

use space_search::{Point, Space};
use std::alloc::AllocError;

/// Three steps lead from the place 0 to the place 1, and leave more or less due there; one leads on
/// to the goal 2. With a bound the space says what is still to pay at the place 1.
#[derive(Drop)]
pub(crate) struct Toll {
    pub(crate) bounded: bool,
}

impl Space for Toll {
    ghost use Rattle.cases.specs.Toll.{toll_rules};
    ghost use Rattle.cases.specs.TollLaws.{toll-keeps_laws};

    type State = (u32, u32);

    type Bounds = ();

    ghost AreBounds = { λ _ _. Unit {0} };

    ghost rules = { λ toll. toll_rules toll.bounded };

    ghost keeps_laws = { λ toll. toll-keeps_laws toll.bounded };

    fn slots(&self) -> u32 {
        3
    }

    fn slot(&self, state: &(u32, u32)) -> u32 {
        state.0
    }

    fn starts(&self) -> u32 {
        1
    }

    fn start(&self, _number: u32) -> Option<((u32, u32), u128)> {
        Some(((0, 0), 0))
    }

    fn steps(&self, state: &(u32, u32)) -> u32 {
        if state.0 == 0 {
            3
        } else if state.0 == 1 {
            1
        } else {
            0
        }
    }

    fn step(&self, state: &(u32, u32), number: u32) -> Option<((u32, u32), u128)> {
        let due = state.1 as u128;
        if state.0 == 0 {
            if number == 0 {
                Some(((1, 9), 1 + due))
            } else if number == 1 {
                Some(((1, 2), 3 + due))
            } else {
                Some(((1, 5), 4 + due))
            }
        } else if state.0 == 1 {
            Some(((2, 0), 2 + due))
        } else {
            None
        }
    }

    fn goal(&self, state: &(u32, u32)) -> bool {
        state.0 == 2
    }

    fn covers(&self, a: &(u32, u32), ca: u128, b: &(u32, u32), cb: u128) -> bool {
        a.0 == b.0 && a.1 <= b.1 && ca <= cb
    }

    fn point(&self, state: &(u32, u32), cost: u128) -> Point {
        Point {
            x: state.1 as i128,
            y: cost as i128,
            z: 0,
        }
    }

    fn low(&self, _bounds: &mut (), state: &(u32, u32)) -> Result<Option<u128>, AllocError> {
        if self.bounded && state.0 == 1 {
            Ok(Some(2 + state.1 as u128))
        } else {
            Ok(Some(0))
        }
    }
}
