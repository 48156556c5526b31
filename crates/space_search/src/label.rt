//! A label: a state that a run reaches, what that costs, and how it was reached.

ghost use Rattle.std.specs.Prelude.{◌≡◌, ⊤};
ghost use Rattle.space_search.specs.Fronts.{member_of};

use crate::fronts::Member;
use std::alloc::AllocError;

/// A state with the cost of a run to it. `parent` is the place of the settled label from which the
/// run's last step goes, plus 1, or 0 at a start; `choice` is the number of that step or start.
pub struct Label<T> {
    pub(crate) cost: u128,
    pub(crate) state: T,
    pub(crate) parent: u32,
    pub(crate) choice: u32,
}

/// By hand, since what is derived for a type with parameters is dear to prove.
impl<T: Copy> Clone for Label<T> {
    ghost is_clone = { λ x y. y ≡ x };

    ghost is_infallible = { λ _. ⊤ };

    fn clone(&self) -> Result<Label<T>, AllocError> {
        Ok(*self)
    }
}

impl<T: Copy> Copy for Label<T> {}

impl<T: Copy> Label<T> {
    /// What the covering test asks of it.
    pub(crate) fn member(&self) -> Member<T>
        ensures value { result ≡ member_of self.now }
    {
        Member {
            cost: self.cost,
            state: self.state,
        }
    }
}
