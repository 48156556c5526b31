//! Tests of what `edge_io` does with real files, the standard output and the loopback, and what
//! decides them.
#![tactic(auto)]

#[cfg(test)]
mod files;
mod heard;
#[cfg(test)]
mod hubs;
mod texts;
mod told;

pub use heard::{Heard, others_of};
pub use texts::long_text;
pub use told::is_told;
