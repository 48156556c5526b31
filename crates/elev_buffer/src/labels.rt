//! What a label keeps of its buffers, and how buffers are compared.

/// The buffers of descending and climbing, in micrometres.
#[derive(Clone, Copy)]
pub struct Pair {
    pub down: i64,
    pub up: i64,
}

/// How the buffers of two labels are compared.
#[derive(Clone, Copy)]
pub enum Mode {
    /// A larger buffer counts as a cost.
    Compensated,
    /// The first buffer must be no larger.
    Ordered,
    /// The two must be equal.
    Equal,
}

/// The modes of both buffers.
#[derive(Clone, Copy)]
pub struct Modes {
    pub down: Mode,
    pub up: Mode,
}
