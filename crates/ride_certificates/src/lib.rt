//! Certificates of requests: the tracks that they ask for, shown least by lists of labels, and the
//! check of such a certificate without a search of labels.
#![tactic(auto)]

mod basis;
mod certifying;
mod checking;

pub use certifying::certify;
pub use checking::check_certificate;
