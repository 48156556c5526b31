//! Lists of labels that show the walks of a track least: their check without a search of labels,
//! and the search that makes them.
#![tactic(auto)]

mod ask;
mod checking;
mod closing;
mod entries;
mod finding;
mod index;
mod leg;
mod low;
mod making;
mod order;
mod proving;
mod proving_steps;
mod rows;
mod runs;
mod settled;
mod space;
mod spans;
mod verdict;

pub use ask::TrackAsk;
pub use checking::verify;
pub use making::{Certified, certify};
pub use proving::{Proving, ProvingTurn};
pub use verdict::{Verdict, Why};
