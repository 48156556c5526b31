//! The frames of requests that have no reply.

ghost use Rattle.std.specs.Prelude.{◌≡◌, ◌≢◌, IfOk};
ghost use Rattle.profile_text.specs.Expr.{sections_in};
ghost use Rattle.route_ready.specs.declared.error.RouteError.TheVariants.{NoMemory};
ghost use Rattle.session_answers.specs.Rows.{route_frame};

use crate::frames::line_frame;
use profile_text::Profile;
use route_ready::{RouteError, line};
use std::alloc::{AllocError, Global};

/// The frame of a request that has no reply, by the profile that it asks for. Want of memory is no
/// reason.
pub(crate) fn route_frame(
    alloc: Global,
    profile: &Profile,
    error: RouteError,
) -> Result<Vec<u8>, AllocError>
    ensures exact { IfOk result
        (λ frame. frame.items ≡ route_frame (sections_in profile.now) error) }
    ensures reason { IfOk result (λ _. error ≢ NoMemory) }
{
    match error {
        RouteError::NoMemory => Err(AllocError),
        other => {
            let line = line(alloc, &other, Some(profile))?;
            line_frame(alloc, 422, line)
        }
    }
}
