//! The connections whose searches wait.

ghost use Rattle.std.specs.Prelude.{◌≡◌};
ghost use Rattle.hall.specs.Parts.{Joins};
ghost use Rattle.hall.specs.State.{without};

use crate::changes::{answered, waits};
use crate::peer::{Frame, Peer};
use session_answers::Search;
use std::collections::VecDeque;

/// Puts a connection last, as one that waits. Where the queue can't grow, the connection is answered
/// by want of memory.
pub(crate) fn joined(queue: &mut VecDeque<u64>, peer: &mut Peer, pending: Search)
    ensures joins { Joins queue.old.items queue.new.items peer.old pending peer.new }
{
    match queue.push_back(peer.id) {
        Ok(()) => waits(peer, pending),
        Err(_) => answered(peer, Frame::Memory),
    }
}

/// Takes a connection out, where it waits.
pub(crate) fn left(queue: &mut VecDeque<u64>, id: u64)
    ensures value { queue.new.items ≡ without id queue.old.items }
{
    queue.retain(|waiting| *waiting != id);
}
