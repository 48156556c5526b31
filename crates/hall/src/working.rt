//! Turns of searches.

ghost use Rattle.std.specs.Prelude.{◌≡◌};
ghost use Rattle.hall.specs.Swept.{IsSwept};
ghost use Rattle.hall.specs.Parts.{AreReadied, HasTurn, IsHeld, IsSearchAt, IsSearchOf, IsWaitingIn, Makes, connection_of, service_in, site_at, state_in, waiting_for};
ghost use Rattle.hall.specs.Steps.{Works};
ghost use Rattle.session_answers.specs.Profiles.{stored_of};
ghost use Rattle.session_answers.specs.Received.{received_of};

use crate::changes::answered;
use crate::desk::Desk;
use crate::peer::{Frame, Peer, Phase};
use crate::peers::place_of;
use crate::queue::joined;
use crate::room::Room;
use crate::sweeping::sweep;
use item_list::Turn;
use session_answers::Search;
use std::mem::replace;

/// Gives a turn to the search that waited longest, and drops the makings for which no session waits
/// any more.
pub(crate) fn work(room: &mut Room)
    requires held { IsHeld room.old }
    ensures works { Works (service_in room.old) (state_in room.old) (state_in room.new) }
    ensures held { IsHeld room.new }
    ensures same { service_in room.new ≡ service_in room.old }
    ensures swept { IsSwept room.new }
{
    give_turn(room);
    sweep(room);
}

/// Gives a turn to the search that waited longest.
fn give_turn(room: &mut Room)
    requires held { IsHeld room.old }
    ensures works { Works (service_in room.old) (state_in room.old) (state_in room.new) }
    ensures held { IsHeld room.new }
    ensures same { service_in room.new ≡ service_in room.old }
{
    let id = match room.desk.queue.pop_front() {
        Some(id) => id,
        None => return,
    };
    let k = place_of(room, id).unwrap();
    worked(&mut room.desk, &mut room.peers[k]);
}

/// Gives a turn to the search of a connection. Where nothing more is said of it, the connection is
/// answered by want of memory.
fn worked(desk: &mut Desk, peer: &mut Peer)
    requires kept { AreReadied desk.old }
    requires waits { IsWaitingIn peer.old.phase }
    requires search { IsSearchAt desk.old peer.old }
    ensures works { Makes desk.old desk.new (HasTurn desk.old (connection_of peer.old)) peer.old.id
        peer.old.away peer.new }
{
    let phase = replace(&mut peer.phase, Phase::Answered(Frame::Memory, 0));
    if let Phase::Waits(pending) = phase {
        turned(desk, peer, pending);
    }
}

/// The same by the search that waited, which was taken out.
fn turned(desk: &mut Desk, peer: &mut Peer, pending: Search)
    requires kept { AreReadied desk.old }
    requires search { IsSearchOf (site_at desk.old) (stored_of desk.old.profiles) desk.old.kept
        (received_of peer.old.received) peer.old.ended peer.old.before pending }
    ensures works { Makes desk.old desk.new
        (HasTurn desk.old (waiting_for (connection_of peer.old) pending.left)) peer.old.id
        peer.old.away peer.new }
{
    match pending.turn(desk.alloc, &desk.world, &desk.profiles, &mut desk.kept) {
        Ok(Turn::More(pending)) => joined(&mut desk.queue, peer, pending),
        Ok(Turn::Done(frame)) => answered(peer, Frame::Own(frame)),
        Err(_) => answered(peer, Frame::Memory),
    }
}
