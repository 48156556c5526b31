//! The routing profile: its text is read into trees.
#![tactic(auto)]

mod bytes;
mod error;
mod expected;
mod expr;
mod kind;
mod look;
mod names;
mod next;
mod parts;
mod profile;
mod read_expr;
mod read_part;
mod read_profile;
mod source;
mod take;

pub use error::{TextError, TextKind};
pub use expr::{Expr, Op};
pub use kind::Section;
pub use names::Names;
pub use profile::{Assign, Profile};
