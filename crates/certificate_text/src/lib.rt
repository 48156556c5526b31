//! Certificates of tracks, and their texts.
#![tactic(auto)]

mod certificate;
mod cuts;
mod digits;
mod draft;
mod error;
mod labels;
mod line;
mod names;
mod numbers;
mod reading;
mod rooms;
mod walks;
mod writing;

pub use certificate::{Certificate, Entry, LowerBound, Proof};
pub use error::CertError;
pub use reading::read;
pub use writing::write;
