//! A search on a leg, at rest between its turns.

use bike_space::{Opening, Rested};
use cost_model::Carry;
use ride_bounds::{Guide, LegBound};
use space_search::Search;
use std::rc::Rc;

/// The most labels that a search settles before it begins anew.
pub const FIRST_LABELS: u64 = 131072;

/// The same where it begins anew by the bound of a guide: a ride that settles more is served sooner by
/// that.
pub(crate) const NEAR_LABELS: u64 = 300;

/// How far what still has to be paid is found at first where there is a guide, in millionths: a
/// kilometre at a costfactor of 1.
pub(crate) const NEAR_SUM: u128 = 1_000_000_000;

/// What a search on a leg is for, and whether it has begun anew.
#[derive(Drop)]
pub(crate) struct Aim {
    /// The most labels that are settled, once it has begun anew.
    pub(crate) limit: u64,
    /// Whether it goes from junction to junction.
    pub(crate) runs: bool,
    /// Whether it hasn't begun anew: what still has to be paid is found near the target alone, and
    /// few labels are settled.
    pub(crate) first: bool,
    /// What it has counted: a label that was settled counts one, and a step of finding what still
    /// has to be paid.
    pub(crate) counted: u64,
    /// What bounds it when it begins anew, where there is such a guide.
    pub(crate) guide: Option<Rc<Guide>>,
}

/// Labels are settled by the bound of a guide.
#[derive(Drop)]
pub(crate) struct Guiding {
    /// What the space keeps: its lists.
    pub(crate) kept: Rested,
    pub(crate) search: Search<Carry>,
    pub(crate) guide: Rc<Guide>,
    /// What is found of the bounds.
    pub(crate) bound: LegBound,
}

/// How far a search on a leg is.
#[derive(Drop)]
pub(crate) enum Stage {
    /// What still has to be paid is being found.
    Opening(Opening),
    /// Labels are settled.
    Settling {
        /// What the space keeps: its lists, and what still has to be paid.
        kept: Rested,
        search: Search<Carry>,
    },
    /// Labels are settled by the bound of a guide.
    Guided(Guiding),
}

/// A search on a leg whose nodes differ, before its end. It borrows nothing: each turn is given the
/// terrain again.
#[derive(Drop)]
pub struct LegSearch {
    pub(crate) stage: Stage,
    pub(crate) aim: Aim,
}
