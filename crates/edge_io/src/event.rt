//! What a hub gives at a time.

/// One event of a hub. An `id` names one connection from its opening on; it is opened once.
#[derive(Clone, Copy, Debug, PartialEq, Eq)]
pub enum Event {
    /// A peer has connected.
    Opened { id: u64 },
    /// The next `n` bytes of a connection came; they stand at the front of the buffer.
    Bytes { id: u64, n: usize },
    /// The peer sends no more; it isn't told where that is the loss of the connection.
    Ended { id: u64 },
    /// The connection is gone; the hub holds it no more.
    Lost { id: u64 },
    /// Nothing happened.
    Quiet,
    /// No event will come any more.
    Over,
}
