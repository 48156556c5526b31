//! Why a text is no certificate.

ghost use Rattle.std.specs.Prelude.{◌≡◌};
ghost use Rattle.certificate_text.specs.declared.error.CertError.TheVariants.{NoMemory};

use std::alloc::AllocError;

/// Why a text is no certificate.
#[derive(Clone, Copy)]
pub enum CertError {
    /// The first line that can't stand where it does, or names no link of the map, from 1; where
    /// the text ends too early, the line after its last.
    Line { line: u32 },
    /// Memory ran out.
    NoMemory,
}

impl From<AllocError> for CertError {
    ghost from_gives = { λ _ e. e ≡ NoMemory };

    fn from(_error: AllocError) -> CertError {
        CertError::NoMemory
    }
}
