//! The connections that are held, in the order of their ids: where one stands, and how many count.

ghost use Rattle.std.specs.Prelude.{◌≡◌, ◌<◌, ◌≤◌, IfErr, IfOk, length};
ghost use Rattle.std.specs.List.{insert};
ghost use Rattle.std.specs.Vec.{vec_capacity};
ghost use Rattle.hall.specs.Parts.{AreAscending, IsAt, IsGapFor, IsReadBy, IsReaderOf, count_of};

use crate::peer::{Peer, Phase};
use crate::room::Room;

/// The place of a connection, or the place where it would stand.
pub(crate) fn place_of(room: &Room, id: u64) -> Result<usize, usize>
    requires ascending { AreAscending room.now.peers.items }
    ensures found { IfOk result (IsAt room.now.peers.items id) }
    ensures absent { IfErr result (IsGapFor room.now.peers.items id) }
{
    room.peers.binary_search_by_key(&id, |peer| peer.id)
}

/// The place of a connection, where it is held and read.
pub(crate) fn reader_of(room: &Room, id: u64) -> Option<usize>
    requires ascending { AreAscending room.now.peers.items }
    ensures exact { IsReaderOf room.now.peers.items id result }
{
    let k = match place_of(room, id) {
        Ok(k) => k,
        Err(_) => return None,
    };
    if is_read(&room.peers[k]) {
        Some(k)
    } else {
        None
    }
}

/// Whether a connection is read.
fn is_read(peer: &Peer) -> bool
    ensures exact { IsReadBy peer.now.phase result }
{
    match &peer.phase {
        Phase::Reading => true,
        _ => false,
    }
}

/// How many connections are turned away, or how many sessions are held.
pub(crate) fn count(room: &Room, away: bool) -> usize
    ensures exact { result ≡ count_of room.now.peers.items away }
{
    let mut n = 0;
    'peers: for k in 0..room.peers.len() {
        if room.peers[k].away == away {
            n += 1;
        }
    }
    n
}

/// Puts a connection at its place.
pub(crate) fn placed(peers: &mut Vec<Peer>, k: usize, peer: Peer)
    requires within { k ≤ length peers.old.items }
    requires roomy { length peers.old.items < vec_capacity peers.old }
    ensures placed { peers.new.items ≡ insert peers.old.items k peer }
    ensures roomy { vec_capacity peers.old ≤ vec_capacity peers.new }
{
    let _placed = peers.insert(k, peer);
}
