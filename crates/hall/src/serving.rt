//! What each connection sends, and its close, in a turn.

ghost use Rattle.std.specs.Prelude.{◌≡◌, ◌<◌, None, Some, drop, if◌then◌else◌, length, slice_get, suc};
ghost use Rattle.edge_io.specs.Hub.{IsLive};
ghost use Rattle.hall.specs.Parts.{IsHeld, Keeps, connection_of, service_in, state_in};
ghost use Rattle.hall.specs.Serving.{AreLive, ClosedDone, SentPiece, ServedAll, ServedOne, ServedPeer};
ghost use Rattle.hall.specs.declared.peer.Peer.{Peer};

use crate::peer::Peer;
use crate::queue::left;
use crate::ready_frames::ReadyFrames;
use crate::room::Room;
use edge_io::Hub;

/// Serves each connection once, in the order of their ids.
pub(crate) fn serve_peers<H: Hub>(room: &mut Room, ready: &ReadyFrames, hub: &mut H)
    requires held { IsHeld room.old }
    requires live { AreLive (state_in room.old) (H.seen hub.old) }
    ensures served { ServedAll (state_in room.old) (H.seen hub.old) (state_in room.new)
        (H.seen hub.new) }
    ensures live { AreLive (state_in room.new) (H.seen hub.new) }
    ensures held { IsHeld room.new }
    ensures same { service_in room.new ≡ service_in room.old }
{
    let mut k = 0;
    'peers: for _served in 0..room.peers.len() {
        if serve_peer(room, ready, hub, k) {
            k += 1;
        }
    }
}

/// Serves the connection at a place; whether it is held still. Those behind it stay.
fn serve_peer<H: Hub>(room: &mut Room, ready: &ReadyFrames, hub: &mut H, k: usize) -> bool
    requires held { IsHeld room.old }
    requires there { k < length room.old.peers.items }
    requires live { AreLive (state_in room.old) (H.seen hub.old) }
    ensures served { (peer : Peer) → slice_get room.old.peers.items k ≡ Some peer →
        ServedPeer peer.id (connection_of peer) (state_in room.old) (H.seen hub.old)
        (state_in room.new) (H.seen hub.new) }
    ensures rest { drop (if result then suc k else k) room.new.peers.items ≡
        drop (suc k) room.old.peers.items }
    ensures live { AreLive (state_in room.new) (H.seen hub.new) }
    ensures held { IsHeld room.new }
    ensures same { service_in room.new ≡ service_in room.old }
{
    if served(ready, hub, &mut room.peers[k]) {
        return true;
    }
    let gone = room.peers.remove(k);
    left(&mut room.desk.queue, gone.id);
    false
}

/// Serves a connection; whether it is held still: not where it was closed, or a send failed.
fn served<H: Hub>(ready: &ReadyFrames, hub: &mut H, peer: &mut Peer) -> bool
    requires live { IsLive (H.seen hub.old).acts peer.old.id }
    ensures served { ServedOne peer.old.id (connection_of peer.old) (H.seen hub.old)
        (if result then Some (connection_of peer.new) else None) (H.seen hub.new) }
    ensures kept { Keeps peer.old peer.new }
{
    if offered(ready, hub, peer) {
        return stays(ready, hub, peer);
    }
    false
}

/// Offers the piece of a connection to the hub, where it has one; not held still where the send
/// failed.
fn offered<H: Hub>(ready: &ReadyFrames, hub: &mut H, peer: &mut Peer) -> bool
    requires live { IsLive (H.seen hub.old).acts peer.old.id }
    ensures sent { SentPiece peer.old.id (connection_of peer.old) (H.seen hub.old)
        (if result then Some (connection_of peer.new) else None) (H.seen hub.new) }
    ensures kept { Keeps peer.old peer.new }
{
    let sent = match ready.piece(&peer.phase) {
        Some(piece) => hub.send(peer.id, piece),
        None => return true,
    };
    match sent {
        Ok(n) => {
            ready.send_more(&mut peer.phase, n);
            true
        }
        Err(_) => false,
    }
}

/// Closes a connection, where it is done; whether it stays.
fn stays<H: Hub>(ready: &ReadyFrames, hub: &mut H, peer: &Peer) -> bool
    requires live { IsLive (H.seen hub.old).acts peer.now.id }
    ensures closed { ClosedDone peer.now.id (connection_of peer.now) (H.seen hub.old)
        (if result then Some (connection_of peer.now) else None) (H.seen hub.new) }
{
    if ready.is_done(&peer.phase) {
        hub.close(peer.id);
        return false;
    }
    true
}
