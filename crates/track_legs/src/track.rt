//! Tracks and their legs.

use item_list::Items;

/// A leg of a track: the walk from a waypoint's node to the next one's.
#[derive(Drop)]
pub struct Leg {
    /// The links of the walk.
    pub links: Items<u32>,
    /// What the walk costs, in millionths.
    pub cost: u128,
    /// What the walk ranks beside the earlier alternatives, in millionths.
    pub rank: u128,
}

/// A track: the nodes of the waypoints, and a leg between each two that follow each other.
pub struct Track {
    /// The nodes of the waypoints.
    pub nodes: Items<u32>,
    /// The legs of the alternative that was asked for.
    pub legs: Items<Leg>,
    /// Of each leg the walks of the alternatives before that one.
    pub earlier: Items<Items<Items<u32>>>,
}

impl Drop for Track {
    fn drop(self) {
        let Track {
            nodes: _,
            legs: _,
            earlier: _,
        } = self;
    }
}
