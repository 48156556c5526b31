//! The connections that are held, and what their sessions are answered from.

use crate::desk::Desk;
use crate::peer::Peer;

/// The connections that are held, and what their sessions are answered from.
pub struct Room {
    /// The connections, in the order of their ids.
    pub peers: Vec<Peer>,
    /// What the sessions are answered from.
    pub desk: Desk,
}

impl Drop for Room {
    fn drop(self) {
        let Room { peers: _, desk: _ } = self;
    }
}
