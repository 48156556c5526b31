//! Whether a profile may be used with a tag table: which names, tags and values may stand where.
#![tactic(auto)]

mod checked;
mod context;
mod error;
mod expr;
mod look;
mod overrides;
mod profile;
mod section;

pub use checked::Checked;
pub use error::CheckError;
pub use overrides::Overrides;
pub use profile::check;
