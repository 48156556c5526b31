//! What is done with a profile on a map.

use crate::timed::words::small_at;

/// How many searches, how many labels each may settle, whether descents have a price, and whether
/// it goes from junction to junction.
#[derive(Clone, Copy)]
pub(crate) struct Plan {
    pub(crate) searches: u32,
    pub(crate) limit: u32,
    pub(crate) hilly: bool,
    pub(crate) by_runs: bool,
}

/// What is done: the profile is bound so many times, or bound once and searched by.
#[derive(Clone, Copy)]
pub(crate) enum Task {
    /// Binds so many times.
    Bind { times: u32 },
    /// Searches as planned.
    Search { plan: Plan },
}

/// The plan that the first four words say.
pub(crate) fn plan_of(words: &[String]) -> Plan {
    Plan {
        searches: small_at(words, 0, 4),
        limit: small_at(words, 1, 4_294_967_295),
        hilly: small_at(words, 2, 1) > 0,
        by_runs: small_at(words, 3, 0) > 0,
    }
}

impl Task {
    /// How often the profile is bound.
    pub(crate) fn times(&self) -> u32 {
        match *self {
            Task::Bind { times } => times,
            Task::Search { .. } => 1,
        }
    }

    /// Whether descents have a price.
    pub(crate) fn is_hilly(&self) -> bool {
        match *self {
            Task::Bind { .. } => true,
            Task::Search { plan } => plan.hilly,
        }
    }
}
