//! Why a query is refused.
ghost use Rattle.std.specs.Prelude.{◌≡◌, IfOk};
ghost use Rattle.std.specs.String.{string_bytes};
ghost use Rattle.route_http.specs.Lines.{request_line};
ghost use Rattle.route_http.specs.declared.error.RequestError.TheVariants.{NoMemory};

use crate::key::Key;
use std::alloc::{AllocError, AllocFailed, Global};

/// Why a query is refused. Pairs are counted from 0.
#[derive(Clone, Copy)]
pub enum RequestError {
    /// The pair at this place has a name that is no key.
    UnknownKey { place: u64 },
    /// The key came before, or an override of the same variable.
    Repeated { key: Key },
    /// The value isn't of the key's form.
    BadValue { key: Key },
    /// There are more items than may be.
    TooMany { key: Key },
    /// The form of the reply isn't offered.
    Format,
    /// The key has to come, and didn't.
    Missing { key: Key },
    /// Memory ran out.
    NoMemory,
}

impl From<AllocError> for RequestError {
    ghost from_gives = { λ _ e. e ≡ NoMemory };

    fn from(_error: AllocError) -> RequestError {
        RequestError::NoMemory
    }
}

impl<T: Drop> From<AllocFailed<T>> for RequestError {
    ghost from_gives = { λ _ e. e ≡ NoMemory };

    fn from(_error: AllocFailed<T>) -> RequestError {
        RequestError::NoMemory
    }
}

impl RequestError {
    /// The line that is printed of it, without an end of line.
    pub fn line(&self, alloc: Global) -> Result<Vec<u8>, AllocError>
        ensures exact { IfOk result (λ line. line.items ≡ request_line self.now) }
    {
        let line = self.text(alloc)?;
        Ok(line.into_bytes())
    }

    /// The line as a text.
    fn text(&self, alloc: Global) -> Result<String, AllocError>
        ensures exact { IfOk result (λ s. string_bytes s ≡ request_line self.now) }
    {
        match self {
            RequestError::UnknownKey { place } => {
                format!(in alloc; "query: unknown key at pair {place}")
            }
            RequestError::Repeated { key } => {
                let name = key.name();
                format!(in alloc; "query: repeated {name}")
            }
            RequestError::BadValue { key } => {
                let name = key.name();
                format!(in alloc; "query: bad value of {name}")
            }
            RequestError::TooMany { key } => {
                let name = key.name();
                format!(in alloc; "query: too many in {name}")
            }
            RequestError::Format => String::from_str(alloc, "query: format not offered"),
            RequestError::Missing { key } => {
                let name = key.name();
                format!(in alloc; "query: missing {name}")
            }
            RequestError::NoMemory => String::from_str(alloc, "out of memory"),
        }
    }
}
