//! Why a section has no values.
ghost use Rattle.std.specs.Prelude.{◌≡◌};
ghost use Rattle.profile_values.specs.declared.value_error.ValueError.TheVariants.{NoMemory};

use fixed_num::Arith;
use item_list::Name;
use std::alloc::{AllocError, AllocFailed};

/// Why a section has no values: the first fault that its evaluation meets.
#[derive(Drop)]
pub enum ValueError {
    /// A variable, a tag or a value that isn't known, on this line.
    Unbound { line: u32 },
    /// A fault of arithmetic in the assignment of this name.
    Arith { name: Name, kind: Arith },
    /// Memory ran out.
    NoMemory,
}

impl From<AllocError> for ValueError {
    ghost from_gives = { λ _ e. e ≡ NoMemory };

    fn from(_error: AllocError) -> ValueError {
        ValueError::NoMemory
    }
}

impl<T: Drop> From<AllocFailed<T>> for ValueError {
    ghost from_gives = { λ _ e. e ≡ NoMemory };

    fn from(_error: AllocFailed<T>) -> ValueError {
        ValueError::NoMemory
    }
}
