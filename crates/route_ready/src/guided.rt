//! A profile that is ready gets a guide.

ghost use Rattle.std.specs.Prelude.{◌≡◌, IfOk, Some};
ghost use Rattle.route_ready.specs.Fits.{HasSameTerms};

use crate::ready::Ready;
use ride_bounds::Guide;
use std::alloc::AllocError;
use std::rc::Rc;

impl Ready {
    /// The same profile with a guide for its rides. The facts of links are shared.
    pub fn guided(&self, guide: Rc<Guide>) -> Result<Ready, AllocError>
        ensures same { IfOk result (HasSameTerms self.now) }
        ensures guide { IfOk result (λ ready. ready.guide ≡ Some guide) }
    {
        Ok(Ready {
            bound: self.bound.clone()?,
            rates: self.rates,
            turns: self.turns,
            guide: Some(guide),
            modes: self.modes(),
        })
    }
}
