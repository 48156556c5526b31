//! Why a file was not read as a whole.

ghost use Rattle.std.specs.Prelude.{◌≡◌};
ghost use Rattle.edge_io.specs.declared.whole_error.WholeError.TheVariants.{Fault, NoMemory};

use crate::failed::Failed;
use std::alloc::AllocError;

/// Why a file was not read as a whole, in the order in which it is found out.
#[derive(Clone, Copy, Drop)]
pub enum WholeError {
    /// A read failed.
    Fault,
    /// The file has more bytes than the limit.
    TooLong,
    /// Memory ran out.
    NoMemory,
}

impl From<Failed> for WholeError {
    ghost from_gives = { λ _ e. e ≡ Fault };

    fn from(_error: Failed) -> WholeError {
        WholeError::Fault
    }
}

impl From<AllocError> for WholeError {
    ghost from_gives = { λ _ e. e ≡ NoMemory };

    fn from(_error: AllocError) -> WholeError {
        WholeError::NoMemory
    }
}
