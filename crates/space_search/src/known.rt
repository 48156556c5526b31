//! What a search knows of its settled labels while the steps of one are listed.

ghost use Rattle.std.specs.Prelude.{◌≡◌, ◌<◌, Some, None, IfSome, MatchOption, length, ⊤};
ghost use Rattle.space_search.specs.Fronts.{IsAsked, heads_of};
ghost use Rattle.space_search.specs.Known.{HaveKnown, known_fronts, only_of};

use crate::fronts::{Fronts, Head};
use crate::heads::head_at;
use crate::label::Label;
use std::alloc::AllocError;

/// The settled labels that the covering test asks, by slot. A space may leave out of its list a step
/// that one of them covers: offering it would do nothing.
pub struct Known<'a, T> {
    pub(crate) labels: &'a Vec<Label<T>>,
    pub(crate) fronts: &'a Fronts<T>,
}

/// By hand, since what is derived for a type with parameters is dear to prove.
impl<'a, T> Clone for Known<'a, T> {
    ghost is_clone = { λ x y. y ≡ x };

    ghost is_infallible = { λ _. ⊤ };

    fn clone(&self) -> Result<Known<'a, T>, AllocError> {
        Ok(*self)
    }
}

impl<'a, T> Copy for Known<'a, T> {}

impl<'a, T> Known<'a, T> {
    /// The state of a slot's only label and what it costs; `None` where the slot has none, as most
    /// do, and where it has several or once had. A space asks this for each step, so it is put in
    /// place there.
    #[inline(always)]
    pub fn only(&self, slot: u32) -> Option<(&T, u128)>
        requires have { HaveKnown self.now }
        requires within { slot < length (heads_of self.now.fronts.now.heads) }
        ensures value { MatchOption result (only_of (known_fronts self.now) slot ≡ None) (λ found.
            only_of (known_fronts self.now) slot
            ≡ Some (record { cost = found.1; state = found.0.now })) }
        ensures known { IfSome result (λ found.
            IsAsked (known_fronts self.now) slot (record { cost = found.1; state = found.0.now })) }
    {
        match head_at(&self.fronts.heads, slot as usize) {
            Head::One(number) => {
                let label = &self.labels[number as usize];
                Some((&label.state, label.cost))
            }
            _ => None,
        }
    }
}
