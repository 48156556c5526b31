//! A profile that is kept.

ghost use Rattle.std.specs.Prelude.{◌≡◌};

use route_ready::Ready;
use std::cell::Cell;
use std::rc::Rc;

/// A profile that was made ready, and how many requests took it since it is kept.
pub(crate) struct KeptProfile {
    pub(crate) ready: Rc<Ready>,
    uses: Cell<u32>,
}

impl Drop for KeptProfile {
    fn drop(self) {
        let KeptProfile { ready: _, uses: _ } = self;
    }
}

impl KeptProfile {
    /// A profile that no request took yet.
    pub(crate) fn new(ready: Rc<Ready>) -> KeptProfile
        ensures ready { result.ready ≡ ready }
    {
        KeptProfile {
            ready,
            uses: Cell::new(0),
        }
    }

    /// Counts a request that takes it.
    pub(crate) fn count_use(&self) {
        self.uses.set(self.uses.get().saturating_add(1));
    }

    /// How many requests took it.
    pub(crate) fn uses(&self) -> u32 {
        self.uses.get()
    }
}
