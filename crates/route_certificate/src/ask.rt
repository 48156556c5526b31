//! What a track is asked with.

/// What a track is asked with, on a terrain.
#[derive(Clone, Copy)]
pub struct TrackAsk<'a> {
    /// The nodes of the waypoints.
    pub nodes: &'a [u32],
    /// The links that circles cut.
    pub cut: &'a [bool],
    /// Whether turn restrictions count.
    pub turns: bool,
}
