//! Why a server ends.

/// Why a server ended.
#[derive(Clone, Copy)]
pub enum ServeEnd {
    /// The hub gave its last event.
    Over,
    /// All turns were taken.
    TurnsSpent,
    /// The hub failed to give an event.
    HubFault,
}
