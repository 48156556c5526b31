//! A grid that a number makes.

ghost use Rattle.std.specs.Prelude.{ℕ, ◌≡◌, ◌+◌, ◌*◌, ◌<◌, ◌≤◌, [], ◌∷◌, ◌++◌, Some, IfOk, OnOk, length};
ghost use Rattle.std.specs.Prelude.{slice_get};
ghost use Rattle.grid_map.specs.declared.plan.Plan.{Plan};
ghost use Rattle.grid_map.specs.Plan.{IsPlan, plan_of, cells_of, end_of};
ghost use Rattle.grid_map.specs.Segments.{segments_of, numbers_below, place_of, HasPlace};
ghost use Rattle.grid_map.specs.Lengths.{cell_place};
ghost use Rattle.geo_int.specs.Spot.{place_of as place_of_spot};

use crate::plan::Plan;
use crate::segment::GridSegment;
use geo_int::Spot;
use std::alloc::{AllocError, Global};
use std::marker::Model;

/// A grid of cells and segments between neighbours; contracts see it as the plan that it was made
/// from.
pub struct Grid {
    numbers: Vec<u32>,
    places: Vec<Option<u32>>,
    plan: Plan,
}

impl Drop for Grid {
    fn drop(self) {
        let Grid {
            numbers: _,
            places: _,
            plan: _,
        } = self;
    }
}

impl Model for Grid {
    ghost use Rattle.grid_map.specs.declared.plan.Plan.{Plan};

    ghost Value = { Plan };

    ghost use Rattle.grid_map.specs.View.{IsGrid};

    ghost view = { λ grid. grid.plan };

    ghost invariant = { IsGrid };
}

impl Grid {
    /// The grid of this seed with `w` cells in a row and `h` rows.
    pub fn made(alloc: Global, seed: u32, w: u32, h: u32) -> Result<Grid, AllocError>
        requires lawful { IsPlan (plan_of seed w h) }
        ensures value { IfOk result (λ grid. grid ≡ plan_of seed w h) }
    {
        let plan = Plan {
            seed,
            width: w,
            height: h,
        };
        let mut numbers = Vec::new(alloc);
        let end = 2 * plan.cells();
        let mut places = Vec::with_capacity(alloc, end as usize)?;
        'numbers: for k in 0..end {
            take_number(plan, k, &mut numbers, &mut places)?;
        }
        Ok(Grid {
            numbers,
            places,
            plan,
        })
    }

    /// How many cells a row has.
    pub fn width(&self) -> u32
        ensures exact { result ≡ self.now.width }
        ensures lawful { IsPlan self.now }
    {
        self.plan.width
    }

    /// How many rows there are.
    pub fn height(&self) -> u32
        ensures exact { result ≡ self.now.height }
        ensures lawful { IsPlan self.now }
    {
        self.plan.height
    }

    /// How many segments the grid has.
    pub fn segments(&self) -> u32
        ensures exact { result ≡ length (segments_of self.now) }
        ensures lawful { IsPlan self.now }
    {
        self.numbers.len() as u32
    }

    /// The segment at this place; the segments stand in the order of their numbers.
    pub fn segment(&self, i: u32) -> GridSegment
        requires within { i < length (segments_of self.now) }
        ensures exact { slice_get (segments_of self.now) i ≡ Some result }
        ensures inside { (result.a < cells_of self.now) × (result.b < cells_of self.now) }
        ensures lawful { IsPlan self.now }
    {
        self.plan.segment(self.numbers[i as usize])
    }

    /// Where a cell lies: a thousandth of a degree for each column and row.
    pub fn spot(&self, node: u32) -> Spot
        requires within { node < cells_of self.now }
        ensures exact { place_of_spot result ≡ cell_place self.now node }
    {
        Spot {
            ilon: 180_000_000 + 1000 * (node % self.plan.width),
            ilat: 90_000_000 + 1000 * (node / self.plan.width),
        }
    }

    /// How many cells the grid has.
    pub(crate) fn cells(&self) -> u32
        ensures exact { result ≡ cells_of self.now }
        ensures within { result ≤ 1000000 }
        ensures lawful { IsPlan self.now }
    {
        self.plan.cells()
    }

    /// The cell to which the segment of this number goes.
    pub(crate) fn end(&self, k: u32) -> u32
        requires within { k < 2 * cells_of self.now }
        ensures exact { result ≡ end_of self.now k }
    {
        self.plan.end(k)
    }

    /// The place of the segment of this number, if the grid has it.
    pub(crate) fn place(&self, k: u32) -> Option<u32>
        requires within { k < 2 * cells_of self.now }
        ensures exact { result ≡ place_of self.now k }
        ensures fits { (place : ℕ) → result ≡ Some place → HasPlace self.now k place }
    {
        self.places[k as usize]
    }
}

/// Notes the place of the next number, and the number itself where the grid has its segment.
fn take_number(
    plan: Plan,
    k: u32,
    numbers: &mut Vec<u32>,
    places: &mut Vec<Option<u32>>,
) -> Result<(), AllocError>
    requires lawful { IsPlan plan }
    requires within { k < 2 * cells_of plan }
    requires before { numbers.old.items ≡ numbers_below plan k }
    ensures numbers { OnOk result (numbers.new.items ≡ numbers_below plan (k + 1)) }
    ensures places { OnOk result (places.new.items ≡ places.old.items ++ place_of plan k ∷ []) }
{
    if !plan.is_there(k) {
        places.push(None)?;
        return Ok(());
    }
    places.push(Some(numbers.len() as u32))?;
    numbers.push(k)?;
    Ok(())
}
