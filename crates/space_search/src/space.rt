//! The interface of everything that is searched.

ghost use Rattle.std.specs.Prelude.{◌≡◌, ◌<◌, IfOk, IsTrue, OnOk};
ghost use Rattle.space_search.specs.Known.{AreKnown, LeavesKnown};
ghost use Rattle.space_search.specs.Listed.{steps_of};
ghost use Rattle.space_search.specs.Rules.{Rules, LOW_BOUND};
ghost use Rattle.space_search.specs.Laws.{IsSpace, Supersedes, SupersedesByCost};

use crate::known::Known;
use crate::point::Point;
use crate::step::{Step, Steps};
use std::alloc::AllocError;

/// A space of states with starts, steps and goals, all by number. No call takes memory but
/// `list_steps`, which takes it for its list alone, and those that find lower bounds.
///
/// `rules` says in one record what all calls answer, and `keeps_laws` that the record keeps the
/// laws of a space. A start or step that isn't permitted is `None`; else it gives the state that is
/// reached and what reaching it costs.
pub trait Space {
    /// A state; it is small, since a search keeps many.
    type State: Copy;

    /// What is kept of the lower bounds that were asked for. It stands beside the space, so that a
    /// search may ask for more of them while it looks at the space.
    type Bounds: Drop;

    /// What the space answers.
    ghost rules: { Self → Rules Self.State };

    /// This is kept of the lower bounds of the space.
    ghost AreBounds: { Self → Self.Bounds → Type 0 };

    /// How many slots there are.
    fn slots(&self) -> u32
        ensures value { result ≡ (rules self.now).slots };

    /// The slot of a state: where a state covers another, both have the same. The covering test
    /// looks at the settled labels of a slot alone, so the fewer share one the better.
    fn slot(&self, state: &Self::State) -> u32
        requires valid { IsTrue ((rules self.now).is_valid state.now) }
        ensures value { result ≡ (rules self.now).slot state.now };

    /// How many starts there are.
    fn starts(&self) -> u32
        ensures value { result ≡ (rules self.now).starts };

    /// The start with this number, and what it costs; `None` where it isn't permitted.
    fn start(&self, number: u32) -> Option<(Self::State, u128)>
        requires within { number < (rules self.now).starts }
        ensures value { result ≡ (rules self.now).start number };

    /// How many steps a state has.
    fn steps(&self, state: &Self::State) -> u32
        requires valid { IsTrue ((rules self.now).is_valid state.now) }
        ensures value { result ≡ (rules self.now).steps state.now };

    /// The step with this number, and what it costs; `None` where it isn't permitted.
    fn step(&self, state: &Self::State, number: u32) -> Option<(Self::State, u128)>
        requires valid { IsTrue ((rules self.now).is_valid state.now) }
        requires within { number < (rules self.now).steps state.now }
        ensures value { result ≡ (rules self.now).step state.now number };

    /// Lists the permitted steps of a state that is reached at a cost, in the order of their
    /// numbers, in place of what the list held. What a known label covers may be left out, as far as
    /// that is found with little work: a search would drop it. A search asks for all steps of a
    /// state at once, so that a space can look up once what they share; one in which they share
    /// nothing needs no body for it, and lists all.
    fn list_steps(
        &self,
        state: &Self::State,
        _cost: u128,
        _known: &Known<Self::State>,
        found: &mut Steps<Self::State>,
    ) -> Result<(), AllocError>
        requires valid { IsTrue ((rules self.now).is_valid state.now) }
        requires small { _cost < LOW_BOUND }
        requires known { AreKnown (rules self.now) _known.now }
        ensures lists { OnOk result (LeavesKnown (rules self.now) _known.now _cost
            (steps_of (rules self.now) state.now) found.new) }
    {
        found.clear();
        'steps: for choice in 0..self.steps(state) {
            if let Some(reached) = self.step(state, choice) {
                found.put(Step {
                    choice,
                    state: reached.0,
                    cost: reached.1,
                })?;
            }
        }
        Ok(())
    }

    /// Whether a state is a goal.
    fn goal(&self, state: &Self::State) -> bool
        requires valid { IsTrue ((rules self.now).is_valid state.now) }
        ensures value { result ≡ (rules self.now).is_goal state.now };

    /// Whether a state that was reached at a cost makes another at its cost needless.
    fn covers(&self, a: &Self::State, ca: u128, b: &Self::State, cb: u128) -> bool
        requires valid_a { IsTrue ((rules self.now).is_valid a.now) }
        requires valid_b { IsTrue ((rules self.now).is_valid b.now) }
        requires small_a { ca < LOW_BOUND }
        requires small_b { cb < LOW_BOUND }
        ensures value { result ≡ (rules self.now).covers a.now ca b.now cb };

    /// The point of a state at a cost: where a state covers another, its point lies under the
    /// other's. The covering test passes over settled labels by it where a slot has many; a space
    /// that says one point of all is right, and then each of them is asked.
    fn point(&self, state: &Self::State, cost: u128) -> Point
        requires valid { IsTrue ((rules self.now).is_valid state.now) }
        requires small { cost < LOW_BOUND }
        ensures value { result ≡ (rules self.now).point state.now cost };

    /// Whether a settled label makes an older one needless in the covering test: for all that comes
    /// and ranks no less than the first, the first covers what the second covers; and so for all
    /// that costs no less than it. A space may always say no; one that says no of a label and itself
    /// isn't asked of others.
    fn supersedes(&self, a: &Self::State, ca: u128, b: &Self::State, cb: u128) -> bool
        requires valid_a { IsTrue ((rules self.now).is_valid a.now) }
        requires valid_b { IsTrue ((rules self.now).is_valid b.now) }
        requires small_a { ca < LOW_BOUND }
        requires small_b { cb < LOW_BOUND }
        ensures sound { IsTrue result → Supersedes (rules self.now) a.now ca b.now cb }
        ensures by_cost { IsTrue result → SupersedesByCost (rules self.now) a.now ca b.now cb }
    {
        false
    }

    /// A lower bound of what is still to pay from a state to a goal; `None` where none is reached.
    fn low(
        &self,
        bounds: &mut Self::Bounds,
        state: &Self::State,
    ) -> Result<Option<u128>, AllocError>
        requires valid { IsTrue ((rules self.now).is_valid state.now) }
        requires are { AreBounds self.now bounds.old }
        ensures value { IfOk result (λ low. low ≡ (rules self.now).low state.now) }
        ensures are { AreBounds self.now bounds.new };

    /// What the space answers keeps the laws of a space.
    ghost keeps_laws: { (space : Self) → IsSpace (rules space) };
}
