//! What a session of the server is answered: by its bytes and the end of its peer, over a world and
//! the stored profiles.
#![tactic(auto)]

mod beginning;
mod frames;
mod guides;
mod guiding;
mod kept;
mod kept_profile;
mod key;
mod makings;
mod naming;
mod profiles;
mod received;
mod refusal;
mod routes;
mod search;
mod uploading;
mod verdict;
mod warming;

pub use beginning::{Begun, begin};
pub use frames::{line_frame, refusal_frame};
pub use guiding::{has_guides_to_make, make_guides};
pub use kept::{KeptProfiles, MOST_KEPT};
pub use profiles::Profiles;
pub use received::Received;
pub use refusal::Refusal;
pub use search::Search;
pub use uploading::upload;
pub use verdict::Verdict;
pub use warming::make_ready;
