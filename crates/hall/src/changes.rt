//! What changes of one connection.

ghost use Rattle.std.specs.Prelude.{◌≡◌, Some};
ghost use Rattle.hall.specs.Parts.{answered_by, entry_of, waiting_by};
ghost use Rattle.hall.specs.Steps.{session, turned_away};
ghost use Rattle.hall.specs.declared.peer.Phase.TheVariants as phases;

use crate::peer::{Frame, Peer, Phase};
use session_answers::{Received, Search};
use std::alloc::Global;

/// A new session.
pub(crate) fn session(alloc: Global, id: u64) -> Peer
    ensures value { entry_of result ≡ record { id = id; known = session } }
{
    Peer {
        id,
        away: false,
        received: Received::new(alloc),
        ended: false,
        before: None,
        phase: Phase::Reading,
    }
}

/// A connection that is turned away.
pub(crate) fn turned_away(alloc: Global, id: u64) -> Peer
    ensures value { entry_of result ≡ record { id = id; known = turned_away } }
{
    Peer {
        id,
        away: true,
        received: Received::new(alloc),
        ended: false,
        before: None,
        phase: Phase::Answered(Frame::Full, 0),
    }
}

/// Gives a connection a frame, of which nothing is sent yet.
pub(crate) fn answered(peer: &mut Peer, frame: Frame)
    ensures value { peer.new ≡ answered_by peer.old frame }
{
    peer.phase = Phase::Answered(frame, 0);
}

/// Notes that a request became whole after so many profiles were stored.
pub(crate) fn whole(peer: &mut Peer, before: usize)
    ensures value { peer.new ≡ record peer.old { before = Some before } }
{
    peer.before = Some(before);
}

/// Lets the search of a connection wait.
pub(crate) fn waits(peer: &mut Peer, pending: Search)
    ensures value { peer.new ≡ waiting_by peer.old pending }
{
    peer.phase = Phase::Waits(pending);
}

/// Leaves a connection whose peer ended before the first byte.
pub(crate) fn silent(peer: &mut Peer)
    ensures value { peer.new ≡ record peer.old { phase = phases.Silent } }
{
    peer.phase = Phase::Silent;
}
