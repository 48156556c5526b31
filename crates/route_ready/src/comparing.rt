//! How the buffers of labels are compared by the facts of all links, found in turns.

ghost use Rattle.std.specs.Prelude.{◌≡◌, ◌≤◌, ◌<◌, ◌-◌, ◌/◌, ◌&&◌, ℕ, Bool, IsTrue, int_le, length};
ghost use Rattle.cost_model.specs.Modes.{mode_by, modes_before};
ghost use Rattle.cost_model.specs.Parts.{is_same};
ghost use Rattle.item_list.specs.Turns.{Says};
ghost use Rattle.route_ready.specs.Making.{EndsMade, FollowsBinding, HasAllLinks, IsComparing, comparing_left};
ghost use Rattle.route_ready.specs.World.{world_of};
ghost use Rattle.tasks.specs.Steps.{Steps};
ghost use Rattle.way_class.specs.Links.{links_of};

use crate::error::{RouteError, of_bind};
use crate::linking::KeptTerms;
use crate::ready::Ready;
use crate::world::World;
use cost_model::FactsOf;
use elev_buffer::{Mode, Modes};
use item_list::Turn;
use std::alloc::Global;
use std::rc::Rc;
use tasks::{Follows, Step, Stepped, Task, turn_of_steps};
use way_class::{BindError, Bound};

/// A profile that is bound, whose links are looked at: the modes are those by the links before the
/// next one.
pub struct Comparing {
    pub(crate) bound: Rc<Bound>,
    pub(crate) terms: KeptTerms,
    pub(crate) modes: Modes,
    pub(crate) link: u32,
}

impl Drop for Comparing {
    fn drop(self) {
        let Comparing {
            bound: _,
            terms: _,
            modes: _,
            link: _,
        } = self;
    }
}

impl Comparing {
    /// No link was looked at.
    fn new(bound: Rc<Bound>, terms: KeptTerms) -> Comparing
        ensures begins { IsComparing result }
        ensures bound { result.bound ≡ bound }
        ensures terms { result.terms ≡ terms }
        ensures first { result.link ≡ 0 }
    {
        Comparing {
            bound,
            terms,
            modes: Modes {
                down: Mode::Compensated,
                up: Mode::Compensated,
            },
            link: 0,
        }
    }

    /// Looks at as many links as a budget allows.
    fn look_on(self, budget: u32) -> Stepped<Comparing, Result<Ready, RouteError>>
        requires over { IsComparing self }
        requires some { 1 ≤ budget }
        ensures steps { Steps IsComparing (λ c. EndsMade c.bound.value c.terms) comparing_left (λ _. 0)
            budget self result }
    {
        let Comparing {
            bound,
            terms,
            modes,
            link,
        } = self;
        let count = bound.count();
        if budget < count - link {
            let modes = more_modes(&bound, modes, link, link + budget);
            Stepped {
                spent: budget,
                turn: Turn::More(Comparing {
                    bound,
                    terms,
                    modes,
                    link: link + budget,
                }),
            }
        } else {
            let modes = more_modes(&bound, modes, link, count);
            Stepped {
                spent: count - link,
                turn: Turn::Done(Ok(Ready {
                    bound,
                    rates: terms.rates,
                    turns: terms.turns,
                    guide: None,
                    modes,
                })),
            }
        }
    }
}

impl Step for Comparing {
    type Data = World;

    type Answer = Result<Ready, RouteError>;

    ghost IsOver = { λ _ c. IsComparing c };

    ghost answers = { λ _ c end. EndsMade c.bound.value c.terms end };

    ghost work_left = { λ _ c. comparing_left c };

    ghost free_left = { λ _ _. 0 };

    fn step(
        self,
        _alloc: Global,
        _dataset: &World,
        budget: u32,
    ) -> Stepped<Comparing, Result<Ready, RouteError>> {
        self.look_on(budget)
    }
}

impl Task for Comparing {
    type Data = World;

    type Answer = Result<Ready, RouteError>;

    ghost IsOver = { λ _ c. IsComparing c };

    ghost answers = { λ _ c end. EndsMade c.bound.value c.terms end };

    ghost turns_left = { λ _ budget c. comparing_left c / budget };

    fn take_turn(
        self,
        alloc: Global,
        dataset: &World,
        budget: u32,
    ) -> Turn<Comparing, Result<Ready, RouteError>> {
        turn_of_steps(alloc, dataset, self, budget)
    }
}

impl Follows for Comparing {
    type Kept = KeptTerms;

    type Given = Result<Bound, BindError>;

    ghost CanBegin = { λ world _ given. HasAllLinks (world_of world) given };

    ghost follows = { λ _ kept given end. FollowsBinding kept given end };

    ghost most_turns = { λ world budget _. length (world_of world).map.links / budget };

    fn begin(
        alloc: Global,
        _dataset: &World,
        kept: KeptTerms,
        given: Result<Bound, BindError>,
    ) -> Turn<Comparing, Result<Ready, RouteError>> {
        match given {
            Ok(bound) => match Rc::new(alloc, bound) {
                Ok(bound) => Turn::More(Comparing::new(bound, kept)),
                Err(_) => Turn::Done(Err(RouteError::NoMemory)),
            },
            Err(e) => Turn::Done(Err(of_bind(e))),
        }
    }
}

/// The modes by the links before an end, where these are the modes by those before the first.
fn more_modes(bound: &Bound, modes: Modes, first: u32, end: u32) -> Modes
    requires order { first ≤ end }
    requires within { end ≤ (links_of bound.now).count }
    requires so_far { modes ≡ modes_before (links_of bound.now).facts first }
    ensures exact { result ≡ modes_before (links_of bound.now).facts end }
{
    let mut found = modes;
    'links: for link in first..end {
        let each = bound.facts(link);
        found = Modes {
            down: joined(found.down, each.downfactor, each.costfactor),
            up: joined(found.up, each.upfactor, each.costfactor),
        };
    }
    found
}

/// The mode by all links so far and one more, whose factor is this.
fn joined(mode: Mode, factor: i64, costfactor: i64) -> Mode
    ensures exact { (same above : Bool) → (IsTrue same → IsTrue above) → mode ≡ mode_by same above →
        result ≡ mode_by (same && is_same factor costfactor) (above && int_le costfactor factor) }
{
    if factor == costfactor {
        mode
    } else if factor < costfactor {
        Mode::Equal
    } else {
        match mode {
            Mode::Equal => Mode::Equal,
            _ => Mode::Ordered,
        }
    }
}
