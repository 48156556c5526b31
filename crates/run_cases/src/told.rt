//! What is told where a case has no answer of its own.

use std::alloc::{AllocError, Global};

/// What is answered where the words aren't such as the call takes.
pub(crate) fn outside(alloc: Global) -> Result<Vec<u8>, AllocError> {
    Vec::from_slice(alloc, b"(outside)")
}

/// What is answered to a call that no part knows.
pub(crate) fn unknown(alloc: Global) -> Result<Vec<u8>, AllocError> {
    Vec::from_slice(alloc, b"no such call")
}
