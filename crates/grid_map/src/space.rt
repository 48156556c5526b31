//! The cells of a grid as a space to search.

ghost use Rattle.std.specs.Prelude.{◌≡◌, ◌*◌, ◌<◌, IsSome, IsTrue, length};
ghost use Rattle.space_search.specs.Laws.{IsSpace};
ghost use Rattle.grid_map.specs.Plan.{IsPlan, cells_of, is_there};
ghost use Rattle.grid_map.specs.Segments.{segments_of, place_of};
ghost use Rattle.grid_map.specs.Costs.{AreCheap, cost_at, listed_costs};
ghost use Rattle.grid_map.specs.Space.{grid_rules, step_forward, step_backward};

use crate::grid::Grid;
use space_search::{Point, Space};
use std::alloc::AllocError;

/// The cells of a grid, each a state with a cell and a slot of its own, and a step to each neighbour
/// that a segment joins.
///
/// A cell has four steps: 0 goes east, 1 north, 2 west, 3 south. A step is `None` where there is no
/// segment or that direction is forbidden.
#[derive(Drop)]
pub struct GridSpace<'a> {
    grid: &'a Grid,
    forward: &'a [Option<u128>],
    backward: &'a [Option<u128>],
    pub(crate) from: u32,
    to: u32,
    ghost lawful: { IsPlan grid.now },
    ghost forward_fits: { length forward.now ≡ length (segments_of grid.now) },
    ghost backward_fits: { length backward.now ≡ length (segments_of grid.now) },
    ghost keeps: { let costs = listed_costs grid.now forward.now backward.now in
        IsSpace (grid_rules grid.now costs from to) },
}

impl<'a> GridSpace<'a> {
    ghost use Rattle.grid_map.specs.Rules.{costs_of, rules_of};
    ghost use Rattle.grid_map.specs.Space.{RunsAreWalks};

    /// The space of the walks from the cell `from` to the cell `to`. The segment of place i costs
    /// `forward[i]` from its first cell to its second and `backward[i]` back; `None` forbids it.
    pub fn new(
        grid: &'a Grid,
        forward: &'a [Option<u128>],
        backward: &'a [Option<u128>],
        from: u32,
        to: u32,
    ) -> GridSpace<'a>
        requires forward { length forward.now ≡ length (segments_of grid.now) }
        requires backward { length backward.now ≡ length (segments_of grid.now) }
        requires forward_cheap { AreCheap forward.now }
        requires backward_cheap { AreCheap backward.now }
        requires from { from < cells_of grid.now }
        requires to { to < cells_of grid.now }
        ensures exact { let costs = listed_costs grid.now forward.now backward.now in
            rules_of result ≡ grid_rules grid.now costs from to }
        ensures lawful { let costs = listed_costs grid.now forward.now backward.now in
            RunsAreWalks (rules_of result) grid.now costs from to }
    {
        let _cells = grid.cells();
        GridSpace {
            grid,
            forward,
            backward,
            from,
            to,
        }
    }

    /// The step along the segment of this number.
    fn forward_step(&self, k: u32) -> Option<(u32, u128)>
        requires fits { k < 2 * cells_of self.now.grid.now }
        ensures exact { result ≡ step_forward self.now.grid.now (costs_of self.now) k }
    {
        let cost = self.cost_in(self.forward, k)?;
        Some((self.grid.end(k), cost))
    }

    /// The step back along the segment of this number.
    fn backward_step(&self, k: u32) -> Option<(u32, u128)>
        requires fits { k < 2 * cells_of self.now.grid.now }
        ensures exact { result ≡ step_backward self.now.grid.now (costs_of self.now) k }
    {
        let cost = self.cost_in(self.backward, k)?;
        Some((k / 2, cost))
    }

    /// The cost in a list of the segment of this number.
    fn cost_in(&self, costs: &[Option<u128>], k: u32) -> Option<u128>
        requires within { k < 2 * cells_of self.now.grid.now }
        requires fits { length costs.now ≡ length (segments_of self.now.grid.now) }
        ensures exact { result ≡ cost_at costs.now (place_of self.now.grid.now k) }
        ensures there { IsSome result → IsTrue (is_there self.now.grid.now k) }
    {
        let place = self.grid.place(k)?;
        costs[place as usize]
    }
}

impl<'a> Space for GridSpace<'a> {
    ghost use Rattle.std.specs.Prelude.{ℕ};
    ghost use Rattle.grid_map.specs.Rules.{rules_of};

    type State = u32;

    type Bounds = ();

    ghost AreBounds = { λ _ _. Unit {0} };

    ghost rules = { rules_of };

    ghost keeps_laws = { λ space. space.keeps };

    fn slots(&self) -> u32 {
        self.grid.cells()
    }

    fn slot(&self, state: &u32) -> u32 {
        *state
    }

    fn starts(&self) -> u32 {
        1
    }

    fn start(&self, _number: u32) -> Option<(u32, u128)> {
        Some((self.from, 0))
    }

    fn steps(&self, _state: &u32) -> u32 {
        4
    }

    fn step(&self, state: &u32, number: u32) -> Option<(u32, u128)> {
        let cell = *state;
        match number {
            0 => self.forward_step(2 * cell),
            1 => self.forward_step(2 * cell + 1),
            2 => self.backward_step(2 * cell.checked_sub(1)?),
            _ => self.backward_step(2 * cell.checked_sub(self.grid.width())? + 1),
        }
    }

    fn goal(&self, state: &u32) -> bool {
        *state == self.to
    }

    fn covers(&self, a: &u32, ca: u128, b: &u32, cb: u128) -> bool {
        *a == *b && ca <= cb
    }

    fn point(&self, _state: &u32, _cost: u128) -> Point {
        Point { x: 0, y: 0, z: 0 }
    }

    fn low(&self, _bounds: &mut (), _state: &u32) -> Result<Option<u128>, AllocError> {
        Ok(Some(0))
    }
}
