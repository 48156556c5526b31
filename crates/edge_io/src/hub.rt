//! Connections of peers, and what happens on them.

ghost use Rattle.std.specs.Prelude.{◌<◌, ◌≤◌, [], ◌∷◌, length, IfOk, OnOk, OnErr};
ghost use Rattle.edge_io.specs.Acts.{Listens};
ghost use Rattle.edge_io.specs.Hub.{HubSeen, FitsBuffer, IsFresh, TellsEndAfter, Does, Gives, Takes, Fails, Breaks, Closes};

use crate::event::Event;
use crate::failed::Failed;
use std::collections::VecDeque;

/// Connections that peers open, whose events come one at a time.
pub trait Hub {
    /// What it shows: its acts so far, where it tells them; the count of its openings and events
    /// that failed, and the count of its sends that failed. Both counts stand still at their last
    /// value.
    ghost seen: { Self → HubSeen };

    /// Begins to take connections at this address. With `hangup` an end of a peer, also of a
    /// connection that is held already, is told as the loss of its connection from then on.
    fn open(&mut self, address: &str, hangup: bool) -> Result<(), Failed>
        ensures value { OnOk result (Does (seen self.old) (seen self.new)
            (Listens address.now hangup ∷ [])) }
        ensures kept { OnErr result (Fails (seen self.old) (seen self.new)) };

    /// The next event. New bytes are put at the front of the buffer. The caller tells which
    /// connections wait for an answer that is still worked on, and whether it is busy with other
    /// work: then the hub waits for nothing; else it may wait a while. Where no more connection can
    /// be taken in, one that is idle may be lost, and none of those that wait.
    fn next(&mut self, buf: &mut [u8], waiting: &VecDeque<u64>, busy: bool) -> Result<Event, Failed>
        requires some { 0 < length buf.old }
        ensures fits { IfOk result (FitsBuffer buf.new) }
        ensures fresh { IfOk result (IsFresh (seen self.old).acts) }
        ensures only { IfOk result (TellsEndAfter (seen self.old).acts) }
        ensures value { IfOk result (Gives (seen self.old) (seen self.new) buf.new) }
        ensures kept { OnErr result (Fails (seen self.old) (seen self.new)) };

    /// Offers bytes to a connection, which takes so many first ones; 0 means not now. Where it
    /// fails the connection is lost, and the hub holds it no more.
    fn send(&mut self, id: u64, piece: &[u8]) -> Result<usize, Failed>
        ensures fits { IfOk result (λ n. n ≤ length piece.now) }
        ensures value { IfOk result (Takes (seen self.old) (seen self.new) id piece.now) }
        ensures broke { OnErr result (Breaks (seen self.old) (seen self.new) id) };

    /// Ends a connection. It does nothing where the hub doesn't hold it.
    fn close(&mut self, id: u64)
        ensures value { Closes (seen self.old) (seen self.new) id };
}
