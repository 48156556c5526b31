//! Why a profile may not be used.
ghost use Rattle.std.specs.Prelude.{◌≡◌};
ghost use Rattle.context_check.specs.declared.error.CheckError.TheVariants.{NoMemory};

use std::alloc::{AllocError, AllocFailed, Global};

/// Why a profile may not be used. Overrides come first, then the sections, of each assignment its
/// name and then its expression from the left; a missing `costfactor` comes last. Lines are counted
/// from 1.
#[derive(Clone, Copy)]
pub enum CheckError {
    /// The override at this place, from 0, has a name that the global section doesn't assign.
    UnknownOverride { place: u32 },
    /// The way section assigns one of the seven names with an effect in the global section, or the
    /// global section has a look.
    WrongSection { line: u32 },
    /// A variable isn't assigned earlier in its section, nor in the global one.
    UnknownName { line: u32 },
    /// A tag isn't in the section's part of the tag table.
    UnknownTag { line: u32 },
    /// A value isn't listed for its tag.
    UnknownValue { line: u32 },
    /// The way section doesn't assign `costfactor`.
    NoCostfactor,
    /// Memory ran out.
    NoMemory,
}

impl From<AllocError> for CheckError {
    ghost from_gives = { λ _ e. e ≡ NoMemory };

    fn from(_error: AllocError) -> CheckError {
        CheckError::NoMemory
    }
}

impl<T: Drop> From<AllocFailed<T>> for CheckError {
    ghost from_gives = { λ _ e. e ≡ NoMemory };

    fn from(_error: AllocFailed<T>) -> CheckError {
        CheckError::NoMemory
    }
}

impl CheckError {
    ghost use Rattle.std.specs.Prelude.{IfOk};
    ghost use Rattle.std.specs.String.{string_bytes};
    ghost use Rattle.context_check.specs.Lines.{check_line};

    /// The line that is printed of it, without an end of line.
    pub fn line(&self, alloc: Global) -> Result<String, AllocError>
        ensures value { IfOk result (λ s. string_bytes s ≡ check_line self.now) }
    {
        match self {
            CheckError::UnknownOverride { place } => {
                format!(in alloc; "override {place}: unknown name")
            }
            CheckError::WrongSection { line } => {
                format!(in alloc; "profile line {line}: wrong section")
            }
            CheckError::UnknownName { line } => {
                format!(in alloc; "profile line {line}: unknown name")
            }
            CheckError::UnknownTag { line } => {
                format!(in alloc; "profile line {line}: unknown tag")
            }
            CheckError::UnknownValue { line } => {
                format!(in alloc; "profile line {line}: unknown value")
            }
            CheckError::NoCostfactor => String::from_str(alloc, "profile: no costfactor"),
            CheckError::NoMemory => String::from_str(alloc, "out of memory"),
        }
    }
}
