//! What a query asks for.

use crate::form::Form;
use context_check::Overrides;
use geo_int::Spot;
use item_list::{Items, Name};
use nogo_areas::Circle;

/// What a query asks for.
pub struct Request {
    /// The waypoints, two or more.
    pub waypoints: Items<Spot>,
    /// The circles that the track may not touch.
    pub circles: Items<Circle>,
    /// The name of the profile.
    pub profile: Name,
    /// Which alternative, from 0.
    pub alternative: u8,
    /// The form of the reply.
    pub form: Form,
    /// The most labels.
    pub labels: u64,
    /// The overrides of global names.
    pub overrides: Overrides,
    /// Whether the search steps from junction to junction.
    pub runs: bool,
    /// The cost within which nodes are asked for, in millionths; 0 where none are.
    pub cost: u64,
    /// The numbers of the waypoints from which costs are asked for; none where these are all.
    pub sources: Items<u64>,
    /// The numbers of those to which they are asked for; none where these are all.
    pub destinations: Items<u64>,
}

impl Drop for Request {
    fn drop(self) {
        let Request {
            waypoints: _,
            circles: _,
            profile: _,
            alternative: _,
            form: _,
            labels: _,
            overrides: _,
            runs: _,
            cost: _,
            sources: _,
            destinations: _,
        } = self;
    }
}
