//! Names that are kept.
ghost use Rattle.std.specs.Prelude.{◌≡◌, IfOk};

use item_list::{Items, Name, bytes_of};
use std::alloc::{AllocError, Global};

/// A name of these bytes.
pub(crate) fn name_of(alloc: Global, bytes: &[u8]) -> Result<Name, AllocError>
    ensures exact { IfOk result (λ name. name ≡ bytes.now) }
{
    Ok(Items::from_vec(bytes_of(alloc, bytes)?))
}
