//! By what a profile that was made ready is found again.

ghost use Rattle.std.specs.Prelude.{◌≡◌, IfOk};

use context_check::Overrides;
use item_list::TryClone;
use std::alloc::{AllocError, Global};

/// By what a profile that was made ready is found again: the place of the profile among those that
/// are stored, and the overrides under which it was made ready, in their order.
#[derive(PartialEq, Eq, Hash, Drop)]
pub(crate) struct Key {
    pub(crate) place: u32,
    pub(crate) overrides: Overrides,
}

/// The key of a profile at a place under overrides.
pub(crate) fn key_of(alloc: Global, place: u32, overrides: &Overrides) -> Result<Key, AllocError>
    ensures exact { IfOk result (λ key. (key.place ≡ place) × (key.overrides ≡ overrides.now)) }
{
    let overrides = overrides.try_clone(alloc)?;
    Ok(Key { place, overrides })
}
