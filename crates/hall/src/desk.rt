//! What sessions are answered from.

use route_ready::World;
use session_answers::{KeptProfiles, Profiles};
use std::alloc::Global;
use std::collections::VecDeque;

/// What sessions are answered from: the world, the stored profiles, those of them that were made
/// ready, and the connections whose searches wait, the longest waiting first.
pub struct Desk {
    /// Where its parts take memory.
    pub alloc: Global,
    /// The map, the heights and the tag table.
    pub world: World,
    /// The most labels that a search settles, whatever a request asks.
    pub labels: u64,
    /// The stored profiles.
    pub profiles: Profiles,
    /// Those of them that were made ready.
    pub kept: KeptProfiles,
    /// The connections whose searches wait.
    pub queue: VecDeque<u64>,
}

impl Drop for Desk {
    fn drop(self) {
        let Desk {
            alloc: _,
            world: _,
            labels: _,
            profiles: _,
            kept: _,
            queue: _,
        } = self;
    }
}
