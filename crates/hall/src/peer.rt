//! What is kept of a connection.

use session_answers::{Received, Search};

/// A frame that is sent: one of the two that were made before, or one of its own.
pub enum Frame {
    /// That of want of memory.
    Memory,
    /// That of a connection that is turned away.
    Full,
    /// One of its own.
    Own(Vec<u8>),
}

impl Drop for Frame {
    fn drop(self) {
        match self {
            Frame::Memory => {}
            Frame::Full => {}
            Frame::Own(_) => {}
        }
    }
}

/// How far a connection is.
#[derive(Drop)]
pub enum Phase {
    /// Its bytes are read.
    Reading,
    /// Its search waits for a turn.
    Waits(Search),
    /// So many bytes of its frame are sent.
    Answered(Frame, usize),
    /// Its peer ended before the first byte.
    Silent,
}

/// A connection that is held.
pub struct Peer {
    /// By which the hub knows it.
    pub id: u64,
    /// It is turned away; else it is a session.
    pub away: bool,
    /// The bytes that came from it.
    pub received: Received,
    /// Its peer ended while it was read.
    pub ended: bool,
    /// How many profiles were stored before its request was whole.
    pub before: Option<usize>,
    /// How far it is.
    pub phase: Phase,
}

impl Drop for Peer {
    fn drop(self) {
        let Peer {
            id: _,
            away: _,
            received: _,
            ended: _,
            before: _,
            phase: _,
        } = self;
    }
}
