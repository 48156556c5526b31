//! Why nothing is answered over a map that is made from a number.

ghost use Rattle.std.specs.Prelude.{◌≡◌};
ghost use Rattle.made_routes.specs.Errors.{route_error};
ghost use Rattle.made_routes.specs.declared.error.MadeError.TheVariants.{NoMemory};

use route_ready::RouteError;
use std::alloc::AllocError;

/// Why nothing is answered over a map that is made from a number. Want of memory is always
/// `NoMemory`, also where it comes from a request.
#[derive(Clone, Copy, Drop)]
pub enum MadeError {
    /// The profile is refused, or the request has no track.
    Route(RouteError),
    /// Memory ran out.
    NoMemory,
}

impl From<AllocError> for MadeError {
    ghost from_gives = { λ _ e. e ≡ NoMemory };

    fn from(_error: AllocError) -> MadeError {
        MadeError::NoMemory
    }
}

/// What the refusal of a request comes to.
pub(crate) fn of_route(error: RouteError) -> MadeError
    ensures exact { result ≡ route_error error }
{
    match error {
        RouteError::NoMemory => MadeError::NoMemory,
        other => MadeError::Route(other),
    }
}
