//! Why a text is no tag table.
ghost use Rattle.std.specs.Prelude.{◌≡◌};
ghost use Rattle.lookup_table.specs.declared.error.LookupError.TheVariants.{NoMemory};

use crate::part::Part;
use std::alloc::{AllocError, Global};

/// Why a text is no tag table. The first line at fault counts, and what is missing at the end comes
/// after all lines; of one line the faults are tried in the order in which they stand here.
#[derive(Drop)]
pub enum LookupError {
    /// The line isn't of the table's forms, isn't UTF-8, is a tag line before any part, or opens a
    /// part again.
    Line { line: u32 },
    /// The line adds tag 1,025 of a part or value 4,097 of a tag.
    TooMany { line: u32 },
    /// There isn't exactly one line of each version kind, both before the first part.
    Version,
    /// The part is missing, or doesn't begin with the tag that it has to begin with.
    FirstTag { part: Part },
    /// Memory ran out.
    NoMemory,
}

impl From<AllocError> for LookupError {
    ghost from_gives = { λ _ e. e ≡ NoMemory };

    fn from(_error: AllocError) -> LookupError {
        LookupError::NoMemory
    }
}

impl LookupError {
    ghost use Rattle.std.specs.Prelude.{IfOk};
    ghost use Rattle.std.specs.String.{string_bytes};
    ghost use Rattle.lookup_table.specs.Lines.{lookup_line};

    /// The line that is printed of it, without an end of line.
    pub fn line(&self, alloc: Global) -> Result<String, AllocError>
        ensures value { IfOk result (λ s. string_bytes s ≡ lookup_line self.now) }
    {
        match self {
            LookupError::Line { line } => format!(in alloc; "lookup line {line}"),
            LookupError::TooMany { line } => format!(in alloc; "too many at line {line}"),
            LookupError::Version => String::from_str(alloc, "lookup version"),
            LookupError::FirstTag { part: Part::Way } => {
                String::from_str(alloc, "first tag of way part")
            }
            LookupError::FirstTag { part: Part::Node } => {
                String::from_str(alloc, "first tag of node part")
            }
            LookupError::NoMemory => String::from_str(alloc, "out of memory"),
        }
    }
}
