//! Connections that open, and those that are lost.

ghost use Rattle.std.specs.Prelude.{◌≡◌};
ghost use Rattle.hall.specs.Parts.{IsGapFor, IsHeld, service_in, state_in};
ghost use Rattle.hall.specs.Steps.{Loses, Opens};

use crate::changes::{session, turned_away};
use crate::peers::{count, place_of, placed};
use crate::queue::left;
use crate::room::Room;

/// How many sessions are held at most, and how many connections are turned away at most.
pub(crate) const MOST_SESSIONS: usize = 64;

/// How many connections are held at most.
pub(crate) const MOST_PEERS: usize = 128;

/// Takes in a connection that opened, where there is room for it. One that is to be closed at once
/// is answered.
pub(crate) fn opened(room: &mut Room, id: u64) -> Option<u64>
    requires held { IsHeld room.old }
    ensures opens { Opens (state_in room.old) id (state_in room.new) result }
    ensures held { IsHeld room.new }
    ensures same { service_in room.new ≡ service_in room.old }
{
    match place_of(room, id) {
        Ok(_) => None,
        Err(k) => taken_in(room, id, k),
    }
}

/// The same of one that isn't held and would stand at a place.
fn taken_in(room: &mut Room, id: u64, k: usize) -> Option<u64>
    requires held { IsHeld room.old }
    requires new { IsGapFor room.old.peers.items id k }
    ensures opens { Opens (state_in room.old) id (state_in room.new) result }
    ensures held { IsHeld room.new }
    ensures same { service_in room.new ≡ service_in room.old }
{
    if count(room, false) < MOST_SESSIONS {
        let peer = session(room.desk.alloc, id);
        placed(&mut room.peers, k, peer);
        return None;
    }
    if count(room, true) < MOST_SESSIONS {
        let peer = turned_away(room.desk.alloc, id);
        placed(&mut room.peers, k, peer);
        return None;
    }
    Some(id)
}

/// Drops a connection that is lost, and its search.
pub(crate) fn lost(room: &mut Room, id: u64)
    requires held { IsHeld room.old }
    ensures loses { Loses (state_in room.old) id (state_in room.new) }
    ensures held { IsHeld room.new }
    ensures same { service_in room.new ≡ service_in room.old }
{
    let k = match place_of(room, id) {
        Ok(k) => k,
        Err(_) => return,
    };
    let _lost = room.peers.remove(k);
    left(&mut room.desk.queue, id);
}
