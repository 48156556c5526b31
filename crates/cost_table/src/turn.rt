//! What a turn of a reach answers.

/// What a turn of a reach answers.
#[derive(Clone, Copy, Drop)]
pub enum ReachTurn {
    /// It settled as many labels as the quota says, and goes on.
    More,
    /// All that is asked for is found.
    Done,
    /// As many labels are settled as the limit allows, and one more would be.
    Budget,
}
