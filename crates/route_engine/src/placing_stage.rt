//! How far the waypoints of a request are moved to nodes.

use nogo_areas::Cutting;

/// How far the waypoints of a request are moved to nodes.
#[derive(Drop)]
pub(crate) enum PlacingStage {
    /// The circles cut links.
    Cutting(Cutting),
    /// These links are cut, and these are the nodes of the first waypoints.
    Moving { cut: Vec<bool>, nodes: Vec<u32> },
    /// The same, and each waypoint has its node.
    Placed { cut: Vec<bool>, nodes: Vec<u32> },
}

/// What a step came to: how much it spent, and how far it is then.
#[derive(Drop)]
pub(crate) struct PlacingStep {
    pub(crate) spent: u32,
    pub(crate) stage: PlacingStage,
}
