//! Makings for which no session waits any more.

ghost use Rattle.std.specs.Prelude.{◌≡◌, ◌≢◌, ◌<◌, ℕ, false, length, true};
ghost use Rattle.hall.specs.Swept.{HasNoWaiter, HasWaiter, IsSwept, IsSweptAt};
ghost use Rattle.hall.specs.Parts.{IsHeld, is_awaited_by, service_in, state_in};

use crate::peer::{Peer, Phase};
use crate::room::Room;

/// Drops each making for which no session waits any more.
pub(crate) fn sweep(room: &mut Room)
    requires held { IsHeld room.old }
    ensures held { IsHeld room.new }
    ensures state { state_in room.new ≡ state_in room.old }
    ensures same { service_in room.new ≡ service_in room.old }
    ensures swept { IsSwept room.new }
{
    let makings = room.desk.kept.makings();
    'makings: for k in 0..makings {
        sweep_place(room, k);
    }
}

/// Drops the making at a place, where no session waits for it.
fn sweep_place(room: &mut Room, k: usize)
    requires held { IsHeld room.old }
    requires within { k < length room.old.desk.kept.makings.slots.items }
    ensures held { IsHeld room.new }
    ensures state { state_in room.new ≡ state_in room.old }
    ensures same { service_in room.new ≡ service_in room.old }
    ensures long { length room.new.desk.kept.makings.slots.items ≡
        length room.old.desk.kept.makings.slots.items }
    ensures swept { IsSweptAt room.new k }
    ensures others { (j : ℕ) → j ≢ k → IsSweptAt room.old j → IsSweptAt room.new j }
{
    if is_awaited(room, k) {
        return;
    }
    room.desk.kept.forget(k);
}

/// Whether some session waits for the making at a place.
fn is_awaited(room: &Room, k: usize) -> bool
    ensures found { result ≡ true → HasWaiter room.now.peers.items k }
    ensures none { result ≡ false → HasNoWaiter room.now.peers.items k }
{
    'peers: for j in 0..room.peers.len() {
        if awaits(&room.peers[j], k) {
            return true;
        }
    }
    false
}

/// Whether a session waits for it.
fn awaits(peer: &Peer, k: usize) -> bool
    ensures exact { result ≡ is_awaited_by peer.now.phase k }
{
    match &peer.phase {
        Phase::Waits(search) => search.waits_for(k),
        _ => false,
    }
}
