//! Events.

ghost use Rattle.std.specs.Prelude.{◌≡◌};
ghost use Rattle.hall.specs.Parts.{IsHeld, service_in, state_in};
ghost use Rattle.hall.specs.Steps.{Step};

use crate::opening::{lost, opened};
use crate::reading::{came, ended};
use crate::room::Room;
use edge_io::Event;

/// Takes an event, with the bytes that came.
pub(crate) fn step(room: &mut Room, event: &Event, bytes: &[u8]) -> Option<u64>
    requires held { IsHeld room.old }
    ensures step { Step (service_in room.old) (state_in room.old) event.now bytes.now
        (state_in room.new) result }
    ensures held { IsHeld room.new }
    ensures same { service_in room.new ≡ service_in room.old }
{
    match *event {
        Event::Opened { id } => opened(room, id),
        Event::Bytes { id, .. } => {
            came(room, id, bytes);
            None
        }
        Event::Ended { id } => {
            ended(room, id);
            None
        }
        Event::Lost { id } => {
            lost(room, id);
            None
        }
        Event::Quiet | Event::Over => None,
    }
}
